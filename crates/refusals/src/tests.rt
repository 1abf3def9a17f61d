// What is refused, a test for each kind, before the first event.
ghost use Rattle.std.specs.Prelude.{◌≡◌, List, ℕ, leb, length};
ghost use Rattle.laws.specs.Choose.{◌and◌};
ghost use Rattle.tables.specs.View.{seen};
ghost use Rattle.sections.specs.Scripts.{Memory};
ghost use Rattle.sections.specs.Refusals.{each_script, each_section, each_event, is_event, is_cell, is_local, is_step, is_guard, is_ready, has_script, is_allowed, one_script_each};
ghost use Rattle.encoding.specs.Rows.{step_of, scripts_of, follows, rows_fit};
ghost use Rattle.encoding.specs.Left.{section_from, script_from, sections_left};
ghost use Rattle.encoding.specs.Events.{events_of};
ghost use Rattle.encoding.specs.Kinds.{event_from};
ghost use Rattle.refusals.specs.Tests.{input_with, scripts_alone, is_short, are_steps, sections_fit, section_fits, is_first};

use encoding::events::{self, Event, Events};
use encoding::memory;
use encoding::rows::{Row, Rows, Step};
use encoding::scripts::{self, Script, Scripts, Section, Sections};
use tables::View;

const MAX_SECTIONS: usize = 8;

const MAX_STEPS: usize = 16;

// Whether a row stands where it may: a step in a section, a section in a script.
fn may_follow(last: Option<Row>, row: Row) -> bool
    ensures { result ≡ follows last row }
{
    match row {
        Row::Script { .. } => true,
        Row::Section { .. } => last.is_some(),
        Row::Step(_) => matches!(last, Some(Row::Section { .. } | Row::Step(_))),
    }
}

/// 11: whether the numbers are whole rows, each where it may stand.
pub fn are_rows_fit(scripts: &[u32]) -> bool
    ensures { result ≡ rows_fit scripts.now }
{
    if scripts.len() % 4 != 0 {
        return false;
    }
    let mut last = None;
    for row in Rows::new(scripts) {
        if !may_follow(last, row) {
            return false;
        }
        last = Some(row);
    }
    true
}

fn is_script_short(script: Script<'_>) -> bool
    ensures { result ≡ is_short (script_from script.entry) }
{
    script.section(MAX_SECTIONS).is_none()
}

/// 11: whether no script has more than 8 sections.
pub fn are_scripts_short(scripts: &[u32]) -> bool
    ensures { result ≡ each_script (scripts_alone scripts.now) is_short }
{
    Scripts::new(scripts).all(|script| is_script_short(script))
}

#[tactic(auto, using(encoding::proofs::Every::chained))]
fn is_cell(ids: &[u32], id: u32, cell: u32) -> bool
    ensures { result ≡ is_cell ids.now id cell }
{
    let at = cell as usize;
    at < ids.len() && ids[at] == id
}

fn is_local(local: u32) -> bool
    ensures { result ≡ is_local local }
{
    (local as usize) < memory::LOCALS
}

// Whether a section of that identifier may take a step.
#[tactic(auto, using(encoding::proofs::Every::chained))]
fn is_step_fit(ids: &[u32], id: u32, step: Option<Step>) -> bool
    ensures { result ≡ is_step ids.now id (step_of step) }
{
    match step {
        Some(Step::Load { cell, local }) => is_cell(ids, id, cell) && is_local(local),
        Some(Step::Store { local, cell }) => is_local(local) && is_cell(ids, id, cell),
        Some(Step::Set { local, .. }) => is_local(local),
        Some(Step::Add { local, other }) => is_local(local) && is_local(other),
        None => false,
    }
}

// 11: at most 16 steps, each of which the section may take.
fn are_steps_fit(ids: &[u32], section: Section<'_>) -> bool
    ensures { result ≡ (leb (length (section_from section.entry).steps) 16 and are_steps ids.now (section_from section.entry)) }
{
    let mut steps = section.steps;
    section.step(MAX_STEPS).is_none() && steps.all(|step| is_step_fit(ids, section.id, step))
}

// 11: whether an identifier names a live, unowned semaphore with attributes 16, 20 or 84.
fn is_guard(v: View<'_>, id: u32) -> bool
    ensures { result ≡ is_guard (seen v.entry) id }
{
    let Some(n) = lookup::slot_named(v, id) else {
        return false;
    };
    let s = v.head((n - 1) as usize);
    rules::is_binary(s.attributes) && s.owner == 0
}

#[tactic(auto, using(encoding::proofs::Every::chained), unfolding(crate::specs::Tests::section_fits))]
fn is_section_fit(v: View<'_>, ids: &[u32], section: Section<'_>) -> bool
    ensures { result ≡ section_fits (seen v.entry) ids.now (section_from section.entry) }
{
    are_steps_fit(ids, section) && is_guard(v, section.id)
}

fn are_all_fit(v: View<'_>, ids: &[u32], mut sections: Sections<'_>) -> bool
    ensures { result ≡ sections_fit (seen v.entry) ids.now (sections_left sections.entry) }
{
    sections.all(|section| is_section_fit(v, ids, section))
}

/// 11: whether every section is as it should be.
pub fn are_sections_fit(v: View<'_>, scripts: &[u32], ids: &[u32]) -> bool
    ensures { result ≡ each_section (scripts_alone scripts.now) (section_fits (seen v.entry) ids.now) }
{
    Scripts::new(scripts).all(|script| are_all_fit(v, ids, script.sections))
}

#[tactic(auto, using(laws::proofs::Choose::cases))]
fn is_first(scripts: &[u32], i: usize, q: u32) -> bool
    ensures { result ≡ is_first (scripts_of scripts.now) i q }
{
    match scripts::script_of(scripts, q) {
        Some((first, _)) => first == i,
        None => false,
    }
}

/// 11: whether each script is the first of its task.
pub fn is_one_each(scripts: &[u32]) -> bool
    ensures { result ≡ one_script_each (scripts_alone scripts.now) }
{
    Scripts::new(scripts)
        .enumerate()
        .all(|(i, script)| is_first(scripts, i, script.task))
}

/// 11: whether every event is one.
pub fn are_events(events: &[u32]) -> bool
    ensures { result ≡ each_event (events_of events.now) is_event }
{
    Events::new(events).all(|event| event.is_some())
}

// 4: whether a task is ready.
fn is_ready(v: View<'_>, q: u32) -> bool
    ensures { result ≡ is_ready (seen v.entry) q }
{
    lookup::task_only(v, q).is_ok()
}

/// 4: whether the task of every script is ready.
pub fn are_scripts_ready(v: View<'_>, scripts: &[u32]) -> bool
    ensures { result ≡ each_script (scripts_alone scripts.now) (λ s. is_ready (seen v.entry) s.task) }
{
    Scripts::new(scripts).all(|script| is_ready(v, script.task))
}

// Whether a task has a script.
fn has_script(scripts: &[u32], q: u32) -> bool
    ensures { result ≡ has_script (scripts_alone scripts.now) q }
{
    scripts::script_of(scripts, q).is_some()
}

// 4: whether an event is a turn of a task with a script, or no script task's call.
fn is_allowed(scripts: &[u32], event: Option<Event<'_>>) -> bool
    ensures { (ids : List ℕ) (memory : Memory) → result ≡ is_allowed (input_with scripts.now ids memory) (event_from event.entry) }
{
    let Some(event) = event else {
        return true;
    };
    match event {
        Event::Turn { task } => has_script(scripts, task),
        Event::Call { call, .. } => !has_script(scripts, events::caller_of(call)),
    }
}

/// 4: whether every event is allowed.
pub fn are_allowed(scripts: &[u32], events: &[u32]) -> bool
    ensures { (ids : List ℕ) (memory : Memory) → result ≡ each_event (events_of events.now)
        (is_allowed (input_with scripts.now ids memory)) }
{
    Events::new(events).all(|event| is_allowed(scripts, event))
}
