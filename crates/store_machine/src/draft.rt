//! A call in progress: its items are judged over the present tables, before anything changes.
ghost use Rattle.std.specs.Prelude.{◌≡◌, ◌++◌, ◌∷◌, [], IfOk, OnOk, List as Items, map, pos};
ghost use Rattle.std.specs.Map.{values_of};
ghost use Rattle.store_machine.specs.Answers.{verdicts, accepted};
ghost use Rattle.store_machine.specs.History.{Change, DropSpace, Operate, set_space};
ghost use Rattle.store_machine.specs.Kept.{with_accepted, Holds, Plans, Judges, Takes};
ghost use Rattle.tx_stage.specs.declared.contents.Contents.{Contents as Tables};

use crate::call::{SpacePut, Verdict};
use etp_values::{ErrorCode, List, NoMemory, Text};
use std::alloc::Global;
use tx_stage::{Contents, Op, Plan};

/// Items that were judged in order: the verdicts, the accepted items, and what these do.
#[derive(Drop)]
pub(crate) struct Draft<T> {
    pub(crate) verdicts: Vec<(Text, Verdict)>,
    pub(crate) accepted: Vec<T>,
    pub(crate) plan: Plan,
}

impl<T: Drop> Draft<T> {
    fn new(alloc: Global) -> Draft<T>
        ensures verdicts { result.verdicts.items ≡ [] }
        ensures accepted { result.accepted.items ≡ [] }
        ensures plan { (t : Tables) (sofar : Items Change) → Holds t sofar → Plans t result.plan sofar }
    {
        Draft {
            verdicts: Vec::new(alloc),
            accepted: Vec::new(alloc),
            plan: Plan::new(alloc),
        }
    }

    /// Notes the verdict on an item, and takes the item if it is accepted.
    fn note(&mut self, name: Text, verdict: Verdict, item: T) -> Result<(), NoMemory>
        ensures verdicts { OnOk result (
            self.new.verdicts.items ≡ self.old.verdicts.items ++ (name, verdict) ∷ []) }
        ensures accepted { OnOk result (
            self.new.accepted.items ≡ with_accepted verdict self.old.accepted.items item) }
        ensures plan { self.new.plan ≡ self.old.plan }
    {
        self.verdicts.push((name, verdict))?;
        if let Verdict::Refused(_) = verdict {
            return Ok(());
        }
        self.accepted.push(item)?;
        Ok(())
    }
}

fn judge_put(alloc: Global, plan: &mut Plan, at: i64, put: &SpacePut) -> Result<Verdict, NoMemory>
    ensures { IfOk result (λ v. (t : Tables) → Judges t plan.old plan.new v (set_space at put.now)) }
{
    if put.path.is_empty() {
        return Ok(Verdict::Refused(ErrorCode::RequestDenied));
    }
    plan.put_space(alloc, at, &put.path, &put.custom)?;
    Ok(Verdict::Accepted)
}

fn take_put(
    alloc: Global,
    draft: &mut Draft<SpacePut>,
    at: i64,
    name: Text,
    put: SpacePut,
) -> Result<(), NoMemory>
    ensures { OnOk result ((t : Tables) (sofar : Items Change) → Plans t draft.old.plan sofar
        → Takes t sofar name put (set_space at put)
        draft.old.verdicts.items draft.new.verdicts.items
        draft.old.accepted.items draft.new.accepted.items draft.new.plan) }
{
    let verdict = judge_put(alloc, &mut draft.plan, at, &put)?;
    draft.note(name, verdict, put)?;
    Ok(())
}

/// Judges dataspaces to be put at a moment.
pub(crate) fn draft_puts(
    alloc: Global,
    at: i64,
    items: Vec<(Text, SpacePut)>,
) -> Result<Draft<SpacePut>, NoMemory>
    ensures verdicts { IfOk result (λ d. (t : Tables) (sofar : Items Change) → Holds t sofar
        → d.verdicts.items ≡ verdicts (set_space (pos 0)) sofar items.items) }
    ensures accepted { IfOk result (λ d. (t : Tables) (sofar : Items Change) → Holds t sofar
        → d.accepted.items ≡ accepted (set_space (pos 0)) sofar (values_of items.items)) }
    ensures plan { IfOk result (λ d. (t : Tables) (sofar : Items Change) → Holds t sofar
        → Plans t d.plan (sofar ++ map (set_space at) d.accepted.items)) }
{
    let mut draft = Draft::new(alloc);
    for (name, put) in items {
        take_put(alloc, &mut draft, at, name, put)?;
    }
    Ok(draft)
}

fn judge_drop(
    alloc: Global,
    contents: &Contents,
    plan: &mut Plan,
    path: &Text,
) -> Result<Verdict, NoMemory>
    ensures { IfOk result (λ v. Judges contents.now plan.old plan.new v (DropSpace path.now)) }
{
    if path.is_empty() {
        return Ok(Verdict::Refused(ErrorCode::RequestDenied));
    }
    if !contents.has_space(plan, path) {
        return Ok(Verdict::Refused(ErrorCode::NotFound));
    }
    plan.drop_space(alloc, path)?;
    Ok(Verdict::Accepted)
}

fn take_drop(
    alloc: Global,
    contents: &Contents,
    draft: &mut Draft<Text>,
    name: Text,
    path: Text,
) -> Result<(), NoMemory>
    ensures { OnOk result ((sofar : Items Change) → Plans contents.now draft.old.plan sofar
        → Takes contents.now sofar name path (DropSpace path)
        draft.old.verdicts.items draft.new.verdicts.items
        draft.old.accepted.items draft.new.accepted.items draft.new.plan) }
{
    let verdict = judge_drop(alloc, contents, &mut draft.plan, &path)?;
    draft.note(name, verdict, path)?;
    Ok(())
}

/// Judges dataspaces to be dropped.
pub(crate) fn draft_drops(
    alloc: Global,
    contents: &Contents,
    items: Vec<(Text, Text)>,
) -> Result<Draft<Text>, NoMemory>
    ensures verdicts { IfOk result (λ d. (sofar : Items Change) → Holds contents.now sofar
        → d.verdicts.items ≡ verdicts DropSpace sofar items.items) }
    ensures accepted { IfOk result (λ d. (sofar : Items Change) → Holds contents.now sofar
        → d.accepted.items ≡ accepted DropSpace sofar (values_of items.items)) }
    ensures plan { IfOk result (λ d. (sofar : Items Change) → Holds contents.now sofar
        → Plans contents.now d.plan (sofar ++ map DropSpace d.accepted.items)) }
{
    let mut draft = Draft::new(alloc);
    for (name, path) in items {
        take_drop(alloc, contents, &mut draft, name, path)?;
    }
    Ok(draft)
}

fn judge_op(
    alloc: Global,
    contents: &Contents,
    plan: &mut Plan,
    op: &Op,
) -> Result<Verdict, NoMemory>
    ensures { IfOk result (λ v. Judges contents.now plan.old plan.new v (Operate op.now)) }
{
    match contents.judge(alloc, plan, op)? {
        None => Ok(Verdict::Accepted),
        Some(code) => Ok(Verdict::Refused(code)),
    }
}

fn take_op(
    alloc: Global,
    contents: &Contents,
    draft: &mut Draft<Op>,
    name: Text,
    op: Op,
) -> Result<(), NoMemory>
    ensures { OnOk result ((sofar : Items Change) → Plans contents.now draft.old.plan sofar
        → Takes contents.now sofar name op (Operate op)
        draft.old.verdicts.items draft.new.verdicts.items
        draft.old.accepted.items draft.new.accepted.items draft.new.plan) }
{
    let verdict = judge_op(alloc, contents, &mut draft.plan, &op)?;
    draft.note(name, verdict, op)?;
    Ok(())
}

/// Judges operations on objects and arrays.
pub(crate) fn draft_ops(
    alloc: Global,
    contents: &Contents,
    items: Vec<(Text, Op)>,
) -> Result<Draft<Op>, NoMemory>
    ensures verdicts { IfOk result (λ d. (sofar : Items Change) → Holds contents.now sofar
        → d.verdicts.items ≡ verdicts Operate sofar items.items) }
    ensures accepted { IfOk result (λ d. (sofar : Items Change) → Holds contents.now sofar
        → d.accepted.items ≡ accepted Operate sofar (values_of items.items)) }
    ensures plan { IfOk result (λ d. (sofar : Items Change) → Holds contents.now sofar
        → Plans contents.now d.plan (sofar ++ map Operate d.accepted.items)) }
{
    let mut draft = Draft::new(alloc);
    for (name, op) in items {
        take_op(alloc, contents, &mut draft, name, op)?;
    }
    Ok(draft)
}

/// Plans operations in order, whatever exists.
pub(crate) fn plan_ops(alloc: Global, contents: &Contents, ops: &List<Op>) -> Result<Plan, NoMemory>
    ensures { IfOk result (λ p. (sofar : Items Change) → Holds contents.now sofar
        → Plans contents.now p (sofar ++ map Operate ops.now)) }
{
    let mut plan = Plan::new(alloc);
    for op in ops.as_slice() {
        contents.plan(alloc, &mut plan, op)?;
    }
    Ok(plan)
}
