ghost use Rattle.ix_image.specs.Written.{IsBegun};

use super::*;
use crate::contents::Contents as Held;
use crate::labels::label_in;
use crate::marks::Marks;
use crate::naming::Links;
use crate::node::Node;
use crate::writing::{push_file_system, push_four, push_label, push_link, push_marks, push_start};
use bitflags::Flags;
use ix_core::Core;
use ix_label::Label;
use ix_model::{
    Config, Contents, FsSpec, Limits, List, Name, NameRef, NoMemory, ObjSpec, PathBuf, PrivSet,
};
use ix_report::Line;
use std::alloc::{AllocError, Global};
use std::process::Abort;

/// What stands before a label, the label's first byte, behind which come 63 zeros, and what stands behind the label.
type Part = (&'static [u8], u8, &'static [u8]);

/// An image, byte by byte: its file systems and its objects.
struct Draft {
    systems: &'static [Part],
    objects: &'static [Part],
}

/// Twenty objects on three file systems, whose ceilings have the categories 0 to 3. It has 1,952 bytes.
const TWENTY: Draft = Draft {
    systems: &[
        (b"\x04root", 15, b"\0\0\0\x10\0\0\0\x0e"),
        (b"\x03vol", 15, b"\0\0\0\x02\0\0\0\x08"),
        (b"\x05tmp_2", 15, b"\0\0\0\x04\0\0\0\x04"),
    ],
    objects: &[
        (
            b"\0\0\0\0\x01\0\0\0",
            0,
            b"\0\0\0\x05\x03vol\0\0\0\x0e\x01d\0\0\0\x01\x05tmp_2\0\0\0\x16\x01a\0\0\0\x03\x03b c\0\0\0\x04",
        ),
        (
            b"\0\0\0\x01\x01\0\0\0",
            1,
            b"\0\0\0\x05\x01d\0\0\0\x02\x01a\0\0\0\x05\x05again\0\0\0\x03\x01e\0\0\0\x06\x01f\0\0\0\x07",
        ),
        (
            b"\0\0\0\x02\x01\0\0\0",
            3,
            b"\0\0\0\x04\x02\"\x01\0\0\0\x08\x03...\0\0\0\x09\x01h\0\0\0\x0a\x03top\0\0\0\0",
        ),
        (b"\0\0\0\x03\0\0\0\0", 0, b"\0\0\0\x0bnamed twice"),
        (b"\0\0\0\x04\0\0\0\0", 2, b"\0\0\0\0"),
        (b"\0\0\0\x05\0\0\0\0", 15, b"\0\0\0\x02\0\xff"),
        (b"\0\0\0\x06\0\0\0\0", 0, b"\0\0\0\x01e"),
        (b"\0\0\0\x07\0\0\0\0", 0, b"\0\0\0\x02ff"),
        (b"\0\0\0\x08\0\0\0\0", 0, b"\0\0\0\0"),
        (b"\0\0\0\x09\0\0\0\0", 0, b"\0\0\0\x04dots"),
        (b"\0\0\0\x0a\0\0\0\0", 4, b"\0\0\0\x08hhhhhhhh"),
        (
            b"\0\0\0\x0e\x01\0\0\0",
            0,
            b"\0\0\0\x03\x01x\0\0\0\x0f\x01y\0\0\0\x10\x01z\0\0\0\x12",
        ),
        (b"\0\0\0\x0f\x01\0\0\0", 0, b"\0\0\0\x01\x01q\0\0\0\x11"),
        (b"\0\0\0\x10\x01\0\0\0", 0, b"\0\0\0\0"),
        (b"\0\0\0\x11\0\0\0\0", 0, b"\0\0\0\x01q"),
        (b"\0\0\0\x12\0\0\0\0", 8, b"\0\0\0\x01z"),
        (
            b"\0\0\0\x16\x01\0\0\0",
            0,
            b"\0\0\0\x03\x01u\0\0\0\x17\x01v\0\0\0\x18\x01w\0\0\0\x19",
        ),
        (b"\0\0\0\x17\x01\0\0\0", 0, b"\0\0\0\0"),
        (b"\0\0\0\x18\0\0\0\0", 0, b"\0\0\0\0"),
        (b"\0\0\0\x19\0\0\0\0", 15, b"\0\0\0\x0cthe last one"),
    ],
};

/// A file in the root.
const SMALL: Draft = Draft {
    systems: &[(b"\x04root", 15, b"\0\0\0\x04\0\0\0\x02")],
    objects: &[
        (b"\0\0\0\0\x01\0\0\0", 0, b"\0\0\0\x01\x01a\0\0\0\x01"),
        (b"\0\0\0\x01\0\0\0\0", 8, b"\0\0\0\x02hi"),
    ],
};

/// Bytes, a label whose first byte this is, and bytes behind it.
fn push_labelled(
    out: &mut Vec<u8>,
    before: &[u8],
    label: u8,
    behind: &[u8],
) -> Result<(), AllocError> {
    out.extend_from_slice(before)?;
    out.push(label)?;
    out.extend_from_slice(&[0; 63])?;
    out.extend_from_slice(behind)
}

/// Parts, behind how many there are.
fn push_parts(out: &mut Vec<u8>, parts: &[Part]) -> Result<(), AllocError> {
    out.extend_from_slice(&[0, 0, 0, (parts.len() % 256) as u8])?;
    for (before, label, behind) in parts {
        push_labelled(out, before, *label, behind)?;
    }
    Ok(())
}

fn push_draft(out: &mut Vec<u8>, draft: &Draft) -> Result<(), AllocError> {
    out.extend_from_slice(b"IXIMAGE1")?;
    push_parts(out, draft.systems)?;
    push_parts(out, draft.objects)
}

fn made(alloc: Global, draft: &Draft) -> Option<Vec<u8>> {
    let mut image = Vec::new(alloc);
    match push_draft(&mut image, draft) {
        Ok(()) => Some(image),
        Err(_) => None,
    }
}

/// The bytes of an image.
fn image<R: Abort>(rt: &R, alloc: Global, draft: &Draft) -> Vec<u8> {
    made(alloc, draft).expect(rt, "there is memory")
}

/// What reading bytes comes to.
#[derive(Clone, Copy, Debug, PartialEq, Eq)]
enum Came {
    Tree,
    Fault(u64, u8),
    NoMemory,
}

fn outcome(alloc: Global, bytes: &[u8]) -> Came {
    match read(alloc, bytes) {
        Ok(_) => Came::Tree,
        Err(ReadImage::Fault { at, rule }) => Came::Fault(at, rule),
        Err(ReadImage::NoMemory) => Came::NoMemory,
    }
}

/// Puts bytes in the place of others.
fn put(image: &mut Vec<u8>, at: usize, new: &[u8]) {
    for (i, b) in new.iter().enumerate() {
        if let Some(old) = image.get_mut(at.wrapping_add(i)) {
            *old = *b;
        }
    }
}

/// What reading the twenty objects comes to where the bytes at a place are others.
fn changed(alloc: Global, at: usize, new: &[u8]) -> Came {
    match made(alloc, &TWENTY) {
        Some(mut image) => {
            put(&mut image, at, new);
            outcome(alloc, &image)
        }
        None => Came::NoMemory,
    }
}

/// A place in the image of the twenty objects, what comes there, and the place and the rule of the fault that it makes.
type Change = (usize, &'static [u8], u64, u8);

fn walk<R: Abort>(rt: &R, alloc: Global, changes: &[Change]) {
    for (at, new, place, rule) in changes {
        assert_eq!(rt;
            changed(alloc, *at, new),
            Came::Fault(*place, *rule),
            "{at}"
        );
    }
}

#[test]
fn twenty_objects_are_read(rt: HostRuntime) {
    assert_eq!(rt; changed(rt.alloc(), 0, b"I"), Came::Tree);
}

/// Each image that is cut lacks a byte.
fn cut_all<R: Abort>(rt: &R, alloc: Global, image: &[u8]) {
    for n in 0..image.len() {
        assert_eq!(rt; outcome(alloc, &image[..n]), Came::Fault(n as u64, 1));
    }
}

#[test]
fn each_front_lacks_a_byte(rt: HostRuntime) {
    let mut image = image(&rt, rt.alloc(), &TWENTY);
    assert_eq!(rt; image.len(), 1_952);
    cut_all(&rt, rt.alloc(), &image);
    assert!(rt; image.push(0).is_ok());
    assert_eq!(rt; outcome(rt.alloc(), &image), Came::Fault(1_952, 7));
}

#[test]
fn first_bytes_are_known(rt: HostRuntime) {
    for at in 0..8 {
        assert_eq!(rt; changed(rt.alloc(), at, b"?"), Came::Fault(at as u64, 2));
    }
    assert_eq!(rt; outcome(rt.alloc(), b"nothing"), Came::Fault(7, 1));
}

const OF_SYSTEMS: &[Change] = &[
    (8, b"\0\0\0\0", 8, 3),
    (8, b"\0\0\0\x11", 8, 3),
    (8, b"\xff\xff\xff\xff", 8, 3),
    (12, b"\0", 12, 4),
    (12, b"<", 12, 4),
    (13, b"9", 12, 4),
    (13, b"R", 12, 4),
    (81, b"\0\0\0\0", 81, 3),
    (81, b"\0\x01\0\x01", 81, 3),
    (85, b"\0\0\0\0", 85, 3),
    (85, b"\0\x01\0\x01", 85, 3),
    (89, b"\0", 89, 4),
    (89, b"<", 89, 4),
    (90, b"9", 89, 4),
    (90, b"R", 89, 4),
    (157, b"\0\0\0\0", 157, 3),
    (157, b"\0\x01\0\x01", 157, 3),
    (161, b"\0\0\0\0", 161, 3),
    (161, b"\0\x01\0\x01", 161, 3),
    (165, b"\0", 165, 4),
    (165, b"<", 165, 4),
    (166, b"9", 165, 4),
    (166, b"R", 165, 4),
    (235, b"\0\0\0\0", 235, 3),
    (235, b"\0\x01\0\x01", 235, 3),
    (239, b"\0\0\0\0", 239, 3),
    (239, b"\0\x01\0\x01", 239, 3),
];

#[test]
fn file_systems_break_rules(rt: HostRuntime) {
    walk(&rt, rt.alloc(), OF_SYSTEMS);
}

/// The first object, one in the middle and the last; three whose number is that of the one before; how many there are.
const OF_OBJECTS: &[Change] = &[
    (247, b"\0\0\0\x1a", 247, 5),
    (247, b"\xff\0\0\0", 247, 5),
    (251, b"\x02", 251, 3),
    (252, b"\x02", 252, 3),
    (253, b"\x20", 253, 3),
    (254, b"\xff", 254, 3),
    (319, b"\0\x10\0\x01", 319, 3),
    (1_048, b"\0\0\0\x1a", 1_048, 5),
    (1_048, b"\xff\0\0\0", 1_048, 5),
    (1_052, b"\x02", 1_052, 3),
    (1_053, b"\x02", 1_053, 3),
    (1_054, b"\x20", 1_054, 3),
    (1_055, b"\xff", 1_055, 3),
    (1_120, b"\0\x10\0\x01", 1_120, 3),
    (1_864, b"\0\0\0\x1a", 1_864, 5),
    (1_864, b"\xff\0\0\0", 1_864, 5),
    (1_868, b"\x02", 1_868, 3),
    (1_869, b"\x02", 1_869, 3),
    (1_870, b"\x20", 1_870, 3),
    (1_871, b"\xff", 1_871, 3),
    (1_936, b"\0\x10\0\x01", 1_936, 3),
    (361, b"\0\0\0\0", 361, 5),
    (1_048, b"\0\0\0\x08", 1_048, 5),
    (1_864, b"\0\0\0\x18", 1_864, 5),
    (243, b"\0\0\0\x1b", 243, 3),
    (243, b"\0\0\0\x15", 1_952, 1),
];

#[test]
fn objects_break_rules(rt: HostRuntime) {
    walk(&rt, rt.alloc(), OF_OBJECTS);
}

#[test]
fn each_byte_of_a_label_is_below_its_ceiling(rt: HostRuntime) {
    for label in [255, 1_056, 1_872] {
        for byte in 0..64 {
            let came = changed(rt.alloc(), label + byte, &[16]);
            assert_eq!(rt; came, Came::Fault(label as u64, 6), "{byte}");
        }
    }
}

#[test]
fn a_mark_and_privileges_may_be_others(rt: HostRuntime) {
    for marks in [252, 1_053, 1_869] {
        assert_eq!(rt;
            changed(rt.alloc(), marks, &[1, 31, 31]),
            Came::Tree,
            "{marks}"
        );
    }
}

/// Names that stand twice in a directory, and objects that are named wrongly.
const OF_NAMES: &[Change] = &[
    (348, b"d", 1_952, 8),
    (444, b"d", 1_952, 8),
    (1_701, b"u", 1_952, 8),
    (352, b"\x0d", 1_952, 8),
    (470, b"\x0c", 1_952, 8),
    (1_711, b"\x0d", 1_952, 8),
    (336, b"\x0f", 1_952, 8),
    (1_293, b"\x03", 1_952, 8),
    (1_711, b"\x03", 1_952, 8),
    (352, b"\x01", 1_952, 8),
    (448, b"\x02", 1_952, 8),
    (1_705, b"\x17", 1_952, 8),
    (360, b"\x03", 1_952, 8),
    (448, b"\x03", 1_952, 8),
    (1_711, b"\x18", 1_952, 8),
    (330, b"\x01", 1_952, 8),
    (352, b"\x0e", 1_952, 8),
    (346, b"\x0e", 1_952, 8),
];

#[test]
fn names_do_not_fit(rt: HostRuntime) {
    walk(&rt, rt.alloc(), OF_NAMES);
}

#[test]
fn directories_in_a_circle_do_not_fit(rt: HostRuntime) {
    let mut image = image(&rt, rt.alloc(), &TWENTY);
    put(&mut image, 336, &[3]);
    put(&mut image, 575, &[1]);
    assert_eq!(rt; outcome(rt.alloc(), &image), Came::Fault(1_952, 8));
}

/// The names of three file systems of a block, how many inodes each has, the names in the root, and the fault of directories
/// of the numbers 0, 2 and 4 there.
type Misfit = ([&'static [u8]; 3], u8, &'static [u8], u64, u8);

/// Two file systems of one name, roots that have another name in the first root, a number of no file system, and file systems
/// without their roots.
const MISFITS: &[Misfit] = &[
    (
        [b"\x04root", b"\x04root", b"\x03vol"],
        2,
        b"\0\0\0\x02\x04root\0\0\0\x02\x03vol\0\0\0\x04",
        491,
        8,
    ),
    (
        [b"\x04root", b"\x03vol", b"\x03vol"],
        2,
        b"\0\0\0\x02\x03vol\0\0\0\x02\x03vol\0\0\0\x04",
        489,
        8,
    ),
    (
        [b"\x03vol", b"\x04root", b"\x03vol"],
        2,
        b"\0\0\0\x02\x04root\0\0\0\x02\x03vol\0\0\0\x04",
        490,
        8,
    ),
    (
        [b"\x01a", b"\x01b", b"\x01c"],
        1,
        b"\0\0\0\x02\x01b\0\0\0\x02\x01c\0\0\0\x04",
        402,
        5,
    ),
    (
        [b"\x01a", b"\x01b", b"\x01c"],
        3,
        b"\0\0\0\x02\x01b\0\0\0\x02\x01c\0\0\0\x04",
        478,
        8,
    ),
];

fn push_misfit(out: &mut Vec<u8>, misfit: &Misfit) -> Result<(), AllocError> {
    let (names, inodes, links, _, _) = misfit;
    out.extend_from_slice(b"IXIMAGE1\0\0\0\x03")?;
    for name in names {
        push_labelled(out, name, 15, &[0, 0, 0, 1, 0, 0, 0, *inodes])?;
    }
    out.extend_from_slice(&[0, 0, 0, 3])?;
    push_labelled(out, b"\0\0\0\0\x01\0\0\0", 0, links)?;
    push_labelled(out, b"\0\0\0\x02\x01\0\0\0", 0, &[0, 0, 0, 0])?;
    push_labelled(out, b"\0\0\0\x04\x01\0\0\0", 0, &[0, 0, 0, 0])
}

/// What reading such file systems comes to.
fn misfit(alloc: Global, misfit: &Misfit) -> Came {
    let mut image = Vec::new(alloc);
    match push_misfit(&mut image, misfit) {
        Ok(()) => outcome(alloc, &image),
        Err(_) => Came::NoMemory,
    }
}

#[test]
fn file_systems_do_not_fit(rt: HostRuntime) {
    for case in MISFITS {
        let (_, _, _, at, rule) = case;
        assert_eq!(rt; misfit(rt.alloc(), case), Came::Fault(*at, *rule), "{at}");
    }
}

/// Two files, on file systems of two blocks and of one.
fn push_files(out: &mut Vec<u8>, first: &[u8], last: &[u8]) -> Result<(), AllocError> {
    out.extend_from_slice(b"IXIMAGE1\0\0\0\x02")?;
    push_labelled(out, b"\x04root", 15, b"\0\0\0\x02\0\0\0\x02")?;
    push_labelled(out, b"\x03vol", 15, b"\0\0\0\x01\0\0\0\x02")?;
    let names = b"\0\0\0\x02\x03vol\0\0\0\x02\x01a\0\0\0\x01";
    push_labelled(out, b"\0\0\0\x04\0\0\0\0\x01\0\0\0", 0, names)?;
    push_file(out, 1, first)?;
    let names = b"\0\0\0\x01\x01b\0\0\0\x03";
    push_labelled(out, b"\0\0\0\x02\x01\0\0\0", 0, names)?;
    push_file(out, 3, last)
}

fn push_file(out: &mut Vec<u8>, number: u8, bytes: &[u8]) -> Result<(), AllocError> {
    let count = (bytes.len() % 65_536) as u32;
    push_labelled(out, &[0, 0, 0, number, 0, 0, 0, 0], 0, &count.to_be_bytes())?;
    out.extend_from_slice(bytes)
}

/// What reading two files of these lengths comes to.
fn files_of(alloc: Global, first: usize, last: usize) -> Came {
    let bytes = [b'x'; 1_025];
    let (first, last) = (bytes.get(..first), bytes.get(..last));
    let mut image = Vec::new(alloc);
    match push_files(&mut image, first.unwrap_or(b""), last.unwrap_or(b"")) {
        Ok(()) => outcome(alloc, &image),
        Err(_) => Came::NoMemory,
    }
}

#[test]
fn files_fit_their_blocks(rt: HostRuntime) {
    let alloc = rt.alloc();
    assert_eq!(rt; files_of(alloc, 1_024, 512), Came::Tree);
    assert_eq!(rt; files_of(alloc, 1_025, 512), Came::Fault(2_030, 8));
    assert_eq!(rt; files_of(alloc, 1_024, 513), Came::Fault(2_030, 8));
}

/// The image of a tree that was read.
fn rewrite(tree: &Tree<'_>, out: &mut Vec<u8>) -> Result<(), NoMemory> {
    let mut line = Line::begin(out);
    let written = push_tree(&mut line, tree);
    line.end(out, written)
}

fn push_tree(line: &mut Line, tree: &Tree<'_>) -> Result<(), NoMemory> {
    push_start(line, (tree.fss.len() % 65_536) as u32)?;
    for fs in &tree.fss {
        push_file_system(line, fs)?;
    }
    push_four(line, (tree.nodes.len() % 65_536) as u32)?;
    for node in &tree.nodes {
        push_node(line, node)?;
    }
    Ok(())
}

fn push_node(line: &mut Line, node: &Node<'_>) -> Result<(), NoMemory> {
    let marks = Marks {
        is_dir: node.contents.is_dir(),
        frozen: node.frozen,
        cap: node.cap,
        lic: node.lic,
    };
    push_four(line, node.number)?;
    push_marks(line, &marks)?;
    push_label(line, &label_in(node.label))?;
    match node.contents {
        Held::File(bytes) => {
            push_four(line, (bytes.len() % 65_536) as u32)?;
            line.push(bytes)
        }
        Held::Dir(links) => push_links(line, &links),
    }
}

fn push_links(line: &mut Line, links: &Links<'_>) -> Result<(), NoMemory> {
    push_four(line, (links.len() % 65_536) as u32)?;
    let mut rest = *links;
    for _ in 0..links.len() {
        if let Some((link, more)) = rest.split_first() {
            if link.name.len() < 256 {
                push_link(line, link.name, link.object)?;
            }
            rest = more;
        }
    }
    Ok(())
}

/// Whether bytes have a fault, or are the image of the tree that is read from them.
fn is_settled(alloc: Global, bytes: &[u8], out: &mut Vec<u8>) -> bool {
    match read(alloc, bytes) {
        Ok(tree) => {
            out.clear();
            rewrite(&tree, out).is_ok() && out.as_slice() == bytes
        }
        Err(ReadImage::Fault { at, rule: _ }) => at <= bytes.len() as u64,
        Err(ReadImage::NoMemory) => false,
    }
}

/// Each byte of an image is changed to each value.
fn settle_all<R: Abort>(rt: &R, alloc: Global, image: &mut Vec<u8>, out: &mut Vec<u8>) {
    for at in 0..image.len() {
        let old = image.get(at).copied().unwrap_or(0);
        for value in 0..=255 {
            put(image, at, &[value]);
            assert!(rt; is_settled(alloc, image, out), "{at}");
        }
        put(image, at, &[old]);
    }
}

#[test]
fn each_byte_matters(rt: HostRuntime) {
    let mut image = image(&rt, rt.alloc(), &TWENTY);
    let mut out = Vec::new(rt.alloc());
    settle_all(&rt, rt.alloc(), &mut image, &mut out);
}

/// Whether bytes are the image of a tree with this list.
fn lists_as(alloc: Global, image: &[u8], wanted: &[u8]) -> bool {
    match read(alloc, image) {
        Ok(tree) => {
            let mut out = Vec::new(alloc);
            list(&tree, &mut out).is_ok() && out.as_slice() == wanted
        }
        Err(_) => false,
    }
}

#[test]
fn a_small_tree_is_listed(rt: HostRuntime) {
    let image = image(&rt, rt.alloc(), &SMALL);
    assert_eq!(rt; image.len(), 253);
    let wanted = b"fs root 0-3 4 2\n0 dir - free - - 0\nname 0 a 1\n1 file 3 free - - 2\nend 2 1\n";
    assert!(rt; lists_as(rt.alloc(), &image, wanted));
}

/// A file system of four blocks and two inodes, whose ceiling has the categories 0 to 3.
fn root() -> Option<FsSpec> {
    Some(FsSpec {
        name: Name::read(b"root")?,
        ceiling: Label::bottom().with_run(0, 3),
        blocks: 4,
        inodes: 2,
    })
}

/// The file `a` with the category 3.
fn file(alloc: Global) -> Option<ObjSpec> {
    let mut path = PathBuf::new(true);
    path.push(NameRef::read(b"a")?);
    let mut said = Vec::new(alloc);
    said.extend_from_slice(b"hi").ok()?;
    Some(ObjSpec {
        path,
        dir: false,
        label: Label::bottom().with(3),
        frozen: false,
        cap: PrivSet::empty(),
        lic: PrivSet::empty(),
        bytes: Contents::from_vec(said),
    })
}

/// A core of these alone.
fn boot(alloc: Global) -> Option<Core> {
    let mut fss = List::new(alloc);
    fss.push(root()?).ok()?;
    let mut objects = List::new(alloc);
    objects.push(file(alloc)?).ok()?;
    let config = Config {
        fss,
        limits: Limits {
            procs: 1,
            opens: 1,
            pipes: 1,
            names: 16,
            log: 0,
        },
        procs: List::new(alloc),
        objects,
        journal: 1000,
    };
    if config.valid() {
        Core::boot(alloc, config).ok()
    } else {
        None
    }
}

/// Writes a hundred pieces at most, and answers whether these were all.
fn is_saved(saving: &mut Saving<'_>, out: &mut Vec<u8>) -> bool
    requires { IsBegun saving.old }
{
    for _ in 0..100 {
        if saving.is_written() {
            return true;
        }
        if saving.write(out).is_err() {
            return false;
        }
    }
    false
}

/// Whether the image of a core of a file comes to these bytes.
fn is_saved_as(alloc: Global, wanted: &[u8]) -> bool {
    let (Some(core), Some(fs)) = (boot(alloc), root()) else {
        return false;
    };
    let fss = [fs];
    let mut out = Vec::new(alloc);
    match Saving::new(alloc, &fss, &core) {
        Ok(mut saving) => is_saved(&mut saving, &mut out) && out.as_slice() == wanted,
        Err(_) => false,
    }
}

#[test]
fn a_core_is_saved(rt: HostRuntime) {
    let image = image(&rt, rt.alloc(), &SMALL);
    assert!(rt; is_saved_as(rt.alloc(), &image));
}

/// What reading so many zeros comes to.
fn zeros(alloc: Global, count: usize) -> Came {
    match vec![in alloc; 0; count] {
        Ok(bytes) => outcome(alloc, &bytes),
        Err(_) => Came::NoMemory,
    }
}

#[test]
fn an_image_has_an_end(rt: HostRuntime) {
    assert_eq!(rt; zeros(rt.alloc(), 671_088_641), Came::Fault(671_088_640, 9));
    assert_eq!(rt; zeros(rt.alloc(), 671_088_640), Came::Fault(0, 2));
}
