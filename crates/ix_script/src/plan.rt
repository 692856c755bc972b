ghost use Rattle.std.specs.Prelude.{◌≡◌, ◌++◌, ◌∷◌, ◌+◌, ◌<◌, [], List, length, take, OnOk, IfOk};
ghost use Rattle.ix_script.specs.{declared.line.Line.{Line}, lines.Before.{proc_told, object_told}, scripts.Held.{IsPlan}, scripts.Scripts.{config_of}};

use crate::header::{DEFAULT_LIMITS, default_fs, fs_spec, limits_after};
use crate::line::Line;
use crate::packed::Lines;
use crate::payload::Payload;
use bitflags::Flags;
use ix_model::{
    Config, Contents, FsSpec, Limits, List, NoMemory, ObjSpec, PathBuf, PrivSet, ProcSpec,
};
use std::alloc::Global;

/// What lines tell of the machine that starts.
#[derive(Drop)]
pub(crate) struct Plan {
    pub fss: List<FsSpec>,
    pub limits: Limits,
    pub procs: List<ProcSpec>,
    pub objects: List<ObjSpec>,
}

fn add_proc(procs: &mut List<ProcSpec>, line: &Line<'_>) -> Result<(), NoMemory>
    ensures { OnOk result (procs.new ≡ procs.old ++ proc_told line.now) }
{
    match line {
        Line::Proc {
            label,
            ceiling,
            cap,
            lic,
            ..
        } => procs.push(ProcSpec {
            label: label.label(),
            ceiling: ceiling.label(),
            cap: *cap,
            lic: *lic,
        }),
        _ => Ok(()),
    }
}

/// The bytes of a payload, which take no memory where it says one byte so many times.
fn contents_of(alloc: Global, payload: &Payload<'_, 1_048_576>) -> Result<Contents, NoMemory>
    ensures { IfOk result (λ c. c ≡ payload.now) }
{
    if let Some((_, byte)) = payload.times() {
        return Ok(Contents::times(alloc, payload.len() as u32, byte));
    }
    let mut decoded = Vec::new(alloc);
    payload.decode_into(&mut decoded)?;
    Ok(Contents::from_vec(decoded))
}

fn add_object(alloc: Global, objects: &mut List<ObjSpec>, line: &Line<'_>) -> Result<(), NoMemory>
    ensures { OnOk result (objects.new ≡ objects.old ++ object_told line.now) }
{
    match line {
        Line::Dir {
            path,
            label,
            frozen,
        } => objects.push(ObjSpec {
            path: PathBuf::from_path(&path.path()),
            dir: true,
            label: label.label(),
            frozen: *frozen,
            cap: PrivSet::empty(),
            lic: PrivSet::empty(),
            bytes: Contents::new(alloc),
        }),
        Line::File {
            path,
            label,
            frozen,
            cap,
            lic,
            bytes,
        } => objects.push(ObjSpec {
            path: PathBuf::from_path(&path.path()),
            dir: false,
            label: label.label(),
            frozen: *frozen,
            cap: *cap,
            lic: *lic,
            bytes: contents_of(alloc, bytes)?,
        }),
        _ => Ok(()),
    }
}

impl Plan {
    /// One line more. After an error the plan isn't used.
    fn add(&mut self, alloc: Global, line: &Line<'_>) -> Result<(), NoMemory>
        ensures { OnOk result ((lines : List Line) → IsPlan self.old lines → IsPlan self.new (lines ++ line.now ∷ [])) }
    {
        if let Some(fs) = fs_spec(line) {
            self.fss.push(fs)?;
        }
        self.limits = limits_after(&self.limits, line);
        add_proc(&mut self.procs, line)?;
        add_object(alloc, &mut self.objects, line)
    }

    /// What lines tell. No line is made but those of the header: no other tells anything.
    #[tactic(auto, unfolding(crate::specs::lines::Before::fss_told, crate::specs::lines::Before::limits_of, crate::specs::lines::Before::default_limits, crate::specs::lines::Before::procs_of, crate::specs::lines::Before::objects_of))]
    fn of(alloc: Global, lines: &Lines<'_>) -> Result<Plan, NoMemory>
        ensures { IfOk result (λ p. IsPlan p lines.now.said) }
    {
        let mut plan = Plan {
            fss: List::new(alloc),
            limits: DEFAULT_LIMITS,
            procs: List::new(alloc),
            objects: List::new(alloc),
        };
        'lines: for index in 0..lines.header_end() {
            if let Some(line) = lines.get(index) {
                plan.add(alloc, &line)?;
            }
        }
        Ok(plan)
    }
}

/// What a machine starts from by these lines.
#[tactic(auto, unfolding(crate::specs::scripts::Scripts::config_of))]
pub(crate) fn config(alloc: Global, lines: &Lines<'_>) -> Result<Config, NoMemory>
    ensures { IfOk result (λ c. c ≡ config_of lines.now.said) }
{
    let mut plan = Plan::of(alloc, lines)?;
    if plan.fss.len() == 0 {
        plan.fss.push(default_fs(lines.form()))?;
    }
    Ok(Config {
        fss: plan.fss,
        limits: plan.limits,
        procs: plan.procs,
        objects: plan.objects,
        journal: lines.need(),
    })
}
