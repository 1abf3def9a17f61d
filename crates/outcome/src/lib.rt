// The run that a text says, and its report with the plain run beside it.
#![tactic(auto)]

ghost use Rattle.std.specs.Prelude.{◌≡◌, ◌-◌, ◌≤◌, length, take, drop};
ghost use Rattle.tables.specs.Layout.{tables_length};
ghost use Rattle.sections.specs.Scripts.{plain};
ghost use Rattle.encoding.specs.Rows.{scripts_of};
ghost use Rattle.encoding.specs.Laid.{memory};
ghost use Rattle.runner.specs.Reply.{ran, run_reply};
ghost use Rattle.plain.specs.Grants.{grants_of};
ghost use Rattle.report.specs.Report.{Reported};
ghost use Rattle.outcome.specs.Outcome.{pairs_in, tasks_in, report_after, Roomy};

use rules::Answer;

// Numbers of all grants that a run may give, their count before them.
const GRANTS: usize = 513;

// Where the pairs of the grants end.
fn grants_end(grants: &[u32]) -> usize
    requires { length grants.now ≡ 513 }
    ensures { (1 ≤ result) × (result ≤ 513) × (take (result - 1) (drop 1 grants.now) ≡ pairs_in grants.now) }
{
    (1 + 2 * (grants[0] as usize)).min(GRANTS)
}

fn task_count(m: &[u8]) -> usize
    requires { length m.now ≡ tables_length }
    ensures { (result ≡ tasks_in m.now) × (result ≤ 32) }
{
    tables::task_count(m).min(rules::MAX_TASKS) as usize
}

// Runs the events, and plainly on copies of the cells and locals the sections that they granted.
fn run_twice(
    m: &mut [u8],
    scripts: &[u32],
    events: &[u32],
    ids: &[u32],
    cells: &mut [u32],
    locals: &mut [u32],
    places: &mut [u32],
    grants: &mut [u32],
    plaincells: &mut [u32],
    plainlocals: &mut [u32],
) -> Answer
    requires { (length grants.old ≡ 513) × (length plaincells.old ≡ length cells.old) × (length plainlocals.old ≡ length locals.old) }
    ensures done { ran result m.new cells.new locals.new places.new grants.new
        ≡ run_reply m.old scripts.now events.now ids.now cells.old locals.old
        places.old grants.old }
    ensures plainly { memory plaincells.new plainlocals.new
        ≡ plain (scripts_of scripts.now) (grants_of (pairs_in grants.new)) (memory cells.old locals.old) }
{
    plaincells.copy_from_slice(cells);
    plainlocals.copy_from_slice(locals);
    let a = runner::run(m, scripts, events, ids, cells, locals, places, grants);
    if a.status == 0 {
        let end = grants_end(grants);
        plain::plain_run(scripts, &grants[1..end], plaincells, plainlocals);
    }
    a
}

// Writes the report of the run at the front of `out`, and returns its length.
pub fn answer(
    m: &mut [u8],
    scripts: &[u32],
    events: &[u32],
    ids: &[u32],
    cells: &mut [u32],
    locals: &mut [u32],
    places: &mut [u32],
    grants: &mut [u32],
    tasks: &mut [u32],
    plaincells: &mut [u32],
    plainlocals: &mut [u32],
    out: &mut [u8],
) -> usize
    requires { Roomy m.old scripts.now cells.old locals.old places.old grants.old tasks.old plaincells.old plainlocals.old out.old }
    ensures { Reported (report_after (run_reply m.old scripts.now events.now ids.now cells.old
        locals.old places.old grants.old) scripts.now cells.old locals.old)
        out.old out.new result }
{
    let a = run_twice(
        m,
        scripts,
        events,
        ids,
        cells,
        locals,
        places,
        grants,
        plaincells,
        plainlocals,
    );
    let count = plain::tasks::tasks_of(scripts, tasks);
    let end = grants_end(grants);
    report::report(
        out,
        a,
        task_count(m),
        cells,
        locals,
        &tasks[..count],
        places,
        &grants[1..end],
        plaincells,
        plainlocals,
    )
}
