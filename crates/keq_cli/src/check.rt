// The task of a check: five texts, and the verdict on their points.
ghost use Rattle.std.specs.Prelude.{◌≡◌, [], ◌<◌, ◌≤◌, ◌++◌, All, IfErr, IfOk, IfSome, IsNone, OnOk, Some, length, slice_get};
ghost use Rattle.sort_term.specs.declared.points.Point.{Point};
ghost use Rattle.ground_judge.specs.Ground.{IsGroundPoint};
ghost use Rattle.ground_judge.specs.Kinds.{test_of};
ghost use Rattle.keq_cli.specs.Plan.{Ends};
ghost use Rattle.keq_cli.specs.Tasks.{IsFirstOpen, IsJudged, RefusesOpen, check_plan};
ghost use Rattle.keq_cli.specs.Made.{AreMade, ArePrograms, AreSemantics};
ghost use Rattle.keq_cli.specs.Stopping.{StopsCheck, StopsWith};
ghost use Rattle.keq_cli.specs.Reports.{not_grounded_line, point_line};
ghost use Rattle.keq_cli.specs.declared.status.Status.{Status};

use crate::answer::Answer;
use crate::loading::{self, Stopped};
use crate::texts::Texts;
use crate::{NoMemory, Role, Status};
use ground_judge::{FailedTest, VerdictKind, is_ground};
use sexp_text::Bytes;
use sort_term::{Left, Point, Problem, Program, Right, Semantics};
use std::alloc::Global;

/// Judges the points of the texts, by runs of at most so many steps, at least 1.
pub fn end_check(alloc: Global, texts: &Texts, steps: u32) -> Result<Answer, Stopped>
    requires { 1 ≤ steps }
    ensures ends { IfOk result (λ answer. Ends (check_plan steps) texts.now answer.status answer.report) }
    ensures stops { IfErr result (StopsWith (Ends (check_plan steps) texts.now Status.Refused)) }
{
    let problem = load_problem(alloc, texts)?;
    let ended = end_problem(alloc, &problem, steps);
    drop(problem);
    ended
}

// The problem that the texts make.
fn load_problem(alloc: Global, texts: &Texts) -> Result<Problem, Stopped>
    ensures made { IfOk result (λ q. AreMade texts.now q.left q.right q.left_program q.right_program q.points) }
    ensures stops { IfErr result (StopsCheck texts.now) }
{
    let (left, right) = load_semantics(alloc, texts)?;
    match load_programs(alloc, texts, &left, &right) {
        Ok((left_program, right_program)) => {
            with_points(alloc, texts, left, right, left_program, right_program)
        }
        Err(stopped) => {
            drop((left, right));
            Err(stopped)
        }
    }
}

fn load_semantics(
    alloc: Global,
    texts: &Texts,
) -> Result<(Semantics<Left>, Semantics<Right>), Stopped>
    ensures made { IfOk result (λ made. AreSemantics texts.now made.0 made.1) }
    ensures stops { IfErr result (StopsCheck texts.now) }
{
    let left = loading::semantics(alloc, Role::LeftSemantics, texts, 0)?;
    match loading::semantics(alloc, Role::RightSemantics, texts, 1) {
        Ok(right) => Ok((left, right)),
        Err(stopped) => {
            drop(left);
            Err(stopped)
        }
    }
}

fn load_programs(
    alloc: Global,
    texts: &Texts,
    left: &Semantics<Left>,
    right: &Semantics<Right>,
) -> Result<(Program<Left>, Program<Right>), Stopped>
    requires { AreSemantics texts.now left.now right.now }
    ensures made { IfOk result (λ made. ArePrograms texts.now left.now right.now made.0 made.1) }
    ensures stops { IfErr result (StopsCheck texts.now) }
{
    let left_program = loading::program(alloc, Role::LeftProgram, left, texts, 2)?;
    match loading::program(alloc, Role::RightProgram, right, texts, 3) {
        Ok(right_program) => Ok((left_program, right_program)),
        Err(stopped) => {
            drop(left_program);
            Err(stopped)
        }
    }
}

fn with_points(
    alloc: Global,
    texts: &Texts,
    left: Semantics<Left>,
    right: Semantics<Right>,
    left_program: Program<Left>,
    right_program: Program<Right>,
) -> Result<Problem, Stopped>
    requires semantics { AreSemantics texts.now left right }
    requires programs { ArePrograms texts.now left right left_program right_program }
    ensures made { IfOk result (λ q. AreMade texts.now q.left q.right q.left_program q.right_program q.points) }
    ensures stops { IfErr result (StopsCheck texts.now) }
{
    match loading::points(alloc, Role::Points, &left, &right, texts, 4) {
        Ok(points) => Ok(Problem {
            left,
            right,
            left_program,
            right_program,
            points,
        }),
        Err(stopped) => {
            drop((left, right, left_program, right_program));
            Err(stopped)
        }
    }
}

// The verdict on a problem, or the refusal of its first point that has variables or conditions.
fn end_problem(alloc: Global, problem: &Problem, steps: u32) -> Result<Answer, Stopped>
    requires no_undefined { problem.now.points.undefs ≡ [] }
    requires steps { 1 ≤ steps }
    ensures ground { OnOk result (All IsGroundPoint problem.now.points.points) }
    ensures judged { IfOk result (λ answer. IsJudged problem.now steps answer.status answer.report) }
    ensures stops { IfErr result (StopsWith (RefusesOpen problem.now.points.points)) }
{
    let points = problem.points.points.as_slice();
    match first_open(points) {
        Some(place) => Err(Stopped::Refused(report_at(
            alloc,
            "refused points variables in ",
            points,
            place,
        )?)),
        None => Ok(judge(alloc, problem, steps)?),
    }
}

// The place of the first point that has variables or conditions.
fn first_open(points: &[Point]) -> Option<usize>
    ensures some { IfSome result (λ k. (p : Point) × IsFirstOpen points.now k p) }
    ensures none { IsNone result → All IsGroundPoint points.now }
{
    for k in 0..points.len() {
        if !is_ground(&points[k]) {
            return Some(k);
        }
    }
    None
}

// The report of the verdict.
fn judge(alloc: Global, problem: &Problem, steps: u32) -> Result<Answer, NoMemory>
    requires ground { All IsGroundPoint problem.now.points.points }
    requires no_undefined { problem.now.points.undefs ≡ [] }
    requires steps { 1 ≤ steps }
    ensures { IfOk result (λ answer. IsJudged problem.now steps answer.status answer.report) }
{
    let points = problem.points.points.as_slice();
    match ground_judge::judge(alloc, problem, steps)? {
        VerdictKind::Equivalent => Ok(Answer {
            status: Status::Equivalent,
            report: Bytes::from_slice(alloc, b"equivalent\n")?,
        }),
        VerdictKind::Refines { point } => Ok(Answer {
            status: Status::Refines,
            report: report_at(alloc, "refines\n", points, point)?,
        }),
        VerdictKind::Unmatched { point } => Ok(Answer {
            status: Status::Unmatched,
            report: report_at(alloc, "unmatched\n", points, point)?,
        }),
        VerdictKind::NotGrounded { point, test } => Ok(Answer {
            status: Status::NotGrounded,
            report: report_at(alloc, not_grounded_line(test), points, point)?,
        }),
    }
}

// The line of a point that isn't grounded.
fn not_grounded_line(test: FailedTest) -> &'static str
    ensures { result.now ≡ not_grounded_line (test_of test) }
{
    match test {
        FailedTest::Void => "not grounded: void\n",
        FailedTest::Outside(_) => "not grounded: outside\n",
        FailedTest::Long(_) => "not grounded: long\n",
        FailedTest::Halted(_) => "not grounded: halted\n",
    }
}

// A line, and the line that names a point.
fn report_at(alloc: Global, line: &str, points: &[Point], place: usize) -> Result<Bytes, NoMemory>
    requires { place < length points.now }
    ensures { IfOk result (λ report. (p : Point) → slice_get points.now place ≡ Some p → report ≡ line.now ++ point_line p.name) }
{
    let mut report = Vec::from_slice(alloc, line.as_bytes())?;
    report.extend_from_slice(b"point ")?;
    report.extend_from_slice(points[place].name.as_slice())?;
    report.push(b'\n')?;
    Ok(Bytes::from_vec(report))
}
