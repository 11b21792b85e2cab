// What a configuration determines of the variables of a term.
ghost use Rattle.std.specs.Prelude.{◌≡◌, ◌<◌, IfOk, OnOk, IsSome, All, length, map};
ghost use Rattle.sort_term.specs.declared.rule.RuleExpr.TheVariants.{Var as VarOf};
ghost use Rattle.sort_term.specs.Sorted.{expr_sort, var_sort};
ghost use Rattle.sort_term.specs.NodeTerms.{seen_term, seen_sort};
ghost use Rattle.unify.specs.Binds.{seen_binds, AreBinds};
ghost use Rattle.pair_match.specs.Determines.{Determines, Determined, AllDetermined};

use data_value::Domain;
use no_memory::NoMemory;
use sort_term::{RuleExpr, Semantics, Side, Term, Vars};
use std::alloc::Global;
use unify::{Binds, copy_term};

/// Binds each variable that is a direct argument of a constructor of a term, and isn't bound yet, to what stands there in a
/// configuration. True where no constructor of the term stands against another one; false where one does, left before right.
#[cycle(determine)]
pub(crate) fn determine<S: Side, D: Domain>(
    alloc: Global,
    d: &D,
    semantics: &Semantics<S>,
    vars: &Vars,
    term: &RuleExpr,
    config: &Term<D::Node>,
    binds: &mut Binds<D::Node>,
) -> Result<bool, NoMemory>
    requires term { IsSome (expr_sort semantics.now.cons vars.now term.now) }
    requires config { seen_sort semantics.now.cons (seen_term (D.look d.now) config.now)
        ≡ expr_sort semantics.now.cons vars.now term.now }
    requires binds { AreBinds semantics.now.cons vars.now (seen_binds (D.look d.now) binds.old) }
    ensures { IfOk result
        (Determined semantics.now.cons vars.now term.now (seen_term (D.look d.now) config.now)
        (seen_binds (D.look d.now) binds.old) (seen_binds (D.look d.now) binds.new)) }
{
    match term {
        RuleExpr::Var(variable) => {
            bind(alloc, d, semantics, vars, *variable, config, binds)?;
            Ok(true)
        }
        RuleExpr::Lit(_) => Ok(true),
        RuleExpr::Op(..) => Ok(true),
        RuleExpr::Con(con, terms) => match config {
            Term::Con(found, configs) => {
                if con.0 == found.0 {
                    Ok(determine_all(
                        alloc,
                        d,
                        semantics,
                        vars,
                        terms.as_slice(),
                        configs.as_slice(),
                        binds,
                    )?)
                } else {
                    Ok(false)
                }
            }
            Term::Plain(_) => unreachable!(),
        },
    }
}

// The same of several terms and as many configurations, place by place.
#[cycle(determine)]
fn determine_all<S: Side, D: Domain>(
    alloc: Global,
    d: &D,
    semantics: &Semantics<S>,
    vars: &Vars,
    terms: &[RuleExpr],
    configs: &[Term<D::Node>],
    binds: &mut Binds<D::Node>,
) -> Result<bool, NoMemory>
    requires terms { All (λ e. IsSome (expr_sort semantics.now.cons vars.now e)) terms.now }
    requires configs { map (seen_sort semantics.now.cons) (map (seen_term (D.look d.now)) configs.now)
        ≡ map (expr_sort semantics.now.cons vars.now) terms.now }
    requires binds { AreBinds semantics.now.cons vars.now (seen_binds (D.look d.now) binds.old) }
    ensures { IfOk result
        (AllDetermined semantics.now.cons vars.now terms.now (map (seen_term (D.look d.now)) configs.now)
        (seen_binds (D.look d.now) binds.old) (seen_binds (D.look d.now) binds.new)) }
{
    for i in 0..terms.len() {
        if !determine(alloc, d, semantics, vars, &terms[i], &configs[i], binds)? {
            return Ok(false);
        }
    }
    Ok(true)
}

// Binds a variable that isn't bound yet to what stands against it.
fn bind<S: Side, D: Domain>(
    alloc: Global,
    d: &D,
    semantics: &Semantics<S>,
    vars: &Vars,
    variable: usize,
    config: &Term<D::Node>,
    binds: &mut Binds<D::Node>,
) -> Result<(), NoMemory>
    requires within { variable < length vars.now }
    requires config { seen_sort semantics.now.cons (seen_term (D.look d.now) config.now) ≡ var_sort vars.now variable }
    requires binds { AreBinds semantics.now.cons vars.now (seen_binds (D.look d.now) binds.old) }
    ensures { OnOk result
        (Determines semantics.now.cons vars.now (VarOf variable) (seen_term (D.look d.now) config.now)
        (seen_binds (D.look d.now) binds.old) (seen_binds (D.look d.now) binds.new)) }
{
    match binds.get(variable) {
        Some(Some(_)) => Ok(()),
        Some(None) => {
            let copy = copy_term(alloc, d, config)?;
            binds.set(variable, Some(copy));
            Ok(())
        }
        None => unreachable!(),
    }
}
