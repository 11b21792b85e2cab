//! What a loaded text says, in one line.
use shown_terms::{Shown, expression, pattern, sort, term, vars, whens};
use sort_term::{
    Con, Cut, Demand, Point, Points, Program, Rule, Semantics, Side, Sort, Source, State, Table,
    TableId,
};
use std::alloc::{AllocError, Global};

/// The sorts, constructors, tables, configuration sort and rules of a semantics.
pub(crate) fn semantics<S: Side>(
    alloc: Global,
    semantics: &Semantics<S>,
) -> Result<String, AllocError> {
    let mut out = Shown::new(alloc);
    for name in semantics.sorts().as_slice() {
        out.part(" ")?;
        out.put("(sort ")?;
        out.name(name)?;
        out.put(")")?;
    }
    for con in semantics.cons().as_slice() {
        constructor(&mut out, con)?;
    }
    for item in semantics.tables().as_slice() {
        table(&mut out, item)?;
    }
    out.place(" (config s", semantics.config().0)?;
    out.put(")")?;
    for item in semantics.rules().as_slice() {
        rule(&mut out, item)?;
    }
    Ok(out.into_text())
}

fn constructor(out: &mut Shown, con: &Con) -> Result<(), AllocError> {
    out.put(" (con ")?;
    out.name(&con.name)?;
    out.put(" (")?;
    for (place, arg) in con.args.as_slice().iter().enumerate() {
        out.put(if place == 0 { "" } else { " " })?;
        sort(out, *arg)?;
    }
    out.put(") ")?;
    sort(out, Sort::Own(con.sort))?;
    out.put(")")
}

fn table(out: &mut Shown, table: &Table) -> Result<(), AllocError> {
    out.put(" (table ")?;
    out.name(&table.name)?;
    out.number(" ", u64::from(table.key))?;
    out.put(" ")?;
    sort(out, table.sort)?;
    out.put(")")
}

fn rule(out: &mut Shown, rule: &Rule) -> Result<(), AllocError> {
    out.put(" (rule ")?;
    out.name(&rule.name)?;
    out.put(" ")?;
    vars(out, rule.vars.as_slice())?;
    out.put(" ")?;
    pattern(out, &rule.head)?;
    for item in rule.demands.as_slice() {
        demand(out, item)?;
    }
    out.put(" => ")?;
    expression(out, &rule.result)?;
    out.put(")")
}

fn demand(out: &mut Shown, demand: &Demand) -> Result<(), AllocError> {
    match demand {
        Demand::When(condition) => {
            out.put(" (when ")?;
            expression(out, condition)?;
        }
        Demand::Let(left, right) => {
            out.put(" (let ")?;
            pattern(out, left)?;
            out.put(" ")?;
            source(out, right)?;
        }
    }
    out.put(")")
}

fn source(out: &mut Shown, source: &Source) -> Result<(), AllocError> {
    match source {
        Source::Expr(right) => expression(out, right),
        Source::Row(id, key) => {
            out.place("(row t", id.0)?;
            out.put(" ")?;
            expression(out, key)?;
            out.put(")")
        }
    }
}

/// The rows of each table.
pub(crate) fn program<S: Side>(
    alloc: Global,
    semantics: &Semantics<S>,
    program: &Program<S>,
) -> Result<String, AllocError> {
    let mut out = Shown::new(alloc);
    for place in 0..semantics.tables().len() {
        out.part(" ")?;
        rows(&mut out, program, place)?;
    }
    out.put(if semantics.tables().is_empty() {
        "no table"
    } else {
        ""
    })?;
    Ok(out.into_text())
}

fn rows<S: Side>(out: &mut Shown, program: &Program<S>, place: usize) -> Result<(), AllocError> {
    out.place("(t", place)?;
    if let Some(rows) = program.get(TableId(place)) {
        for row in rows.as_slice() {
            out.number(" (", row.key)?;
            out.put(" ")?;
            term(out, &row.term)?;
            out.put(")")?;
        }
    }
    out.put(")")
}

/// The tree of a state.
pub(crate) fn state<S: Side>(alloc: Global, state: &State<S>) -> Result<String, AllocError> {
    let mut out = Shown::new(alloc);
    term(&mut out, state.term())?;
    Ok(out.into_text())
}

/// The cuts of the left side, those of the right side, and the points.
pub(crate) fn points(alloc: Global, points: &Points) -> Result<String, AllocError> {
    let mut out = Shown::new(alloc);
    cuts(&mut out, "(left ", points.left_cuts.as_slice())?;
    cuts(&mut out, "(right ", points.right_cuts.as_slice())?;
    for item in points.points.as_slice() {
        out.part(" ")?;
        point(&mut out, item)?;
    }
    Ok(out.into_text())
}

fn cuts<S: Side>(out: &mut Shown, side: &str, cuts: &[Cut<S>]) -> Result<(), AllocError> {
    for cut in cuts {
        out.part(" ")?;
        out.put(side)?;
        out.name(&cut.name)?;
        out.put(" ")?;
        vars(out, cut.vars.as_slice())?;
        out.put(" ")?;
        pattern(out, &cut.pattern)?;
        whens(out, cut.whens.as_slice())?;
        out.put(")")?;
    }
    Ok(())
}

fn point(out: &mut Shown, point: &Point) -> Result<(), AllocError> {
    out.put("(point ")?;
    out.name(&point.name)?;
    out.put(" ")?;
    vars(out, point.vars.as_slice())?;
    out.put(" ")?;
    expression(out, &point.left)?;
    out.put(" ")?;
    expression(out, &point.right)?;
    whens(out, point.whens.as_slice())?;
    out.put(")")
}
