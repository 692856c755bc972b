//! The machine's types, and the definitions that every contract above cites.
#![tactic(auto)]

mod audit;
mod blocks;
mod bytes;
mod call;
mod config;
mod contents;
mod entry;
mod ids;
pub mod laws;
mod list;
mod mounts;
mod name;
mod name_ref;
mod path;
mod path_buf;
mod privs;
mod refusal;
mod reply;
mod sys;
mod valid;
mod views;

pub use audit::{Act, AuditLine};
pub use blocks::blocks_for;
pub use bytes::Bytes;
pub use call::{Buf, Call, Keep, Mode};
pub use config::{Config, FsSpec, Limits, ObjSpec, ProcSpec};
pub use contents::Contents;
pub use entry::{Entry, Kept};
pub use ids::{Fd, Obj, Pid};
pub use ix_memory::NoMemory;
pub use list::List;
pub use mounts::{fs_of, is_mount};
pub use name::Name;
pub use name_ref::NameRef;
pub use path::{Names, Path};
pub use path_buf::PathBuf;
pub use privs::PrivSet;
pub use refusal::Refusal;
pub use reply::{Answer, Kind, Reply};
pub use sys::Sys;
pub use views::{Caller, Floating, ObjView, ProcView};
