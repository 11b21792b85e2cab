// Equations: nodes of sort bool that have to be true.
ghost use Rattle.std.specs.Prelude.{◌≡◌, false, map, All, OnOk};
ghost use Rattle.std.specs.List.{list_any};
ghost use Rattle.data_value.specs.Truth.{IsCondition};
ghost use Rattle.unify.specs.Equations.{known_as, with_equation};

use crate::binds::Nodes;
use data_value::Domain;
use data_value::conditions::known_truth;
use no_memory::NoMemory;

/// Whether a condition is known to have this truth value under every valuation. It takes no memory.
pub(crate) fn is_known_as<D: Domain>(d: &D, condition: &D::Node, truth: bool) -> bool
    requires { IsCondition (D.look d.now condition.now) }
    ensures { result ≡ known_as truth (D.look d.now condition.now) }
{
    known_truth(d, condition) == Some(truth)
}

/// Adds an equation, unless it is known to be true. It fails only for want of memory.
pub(crate) fn add_equation<D: Domain>(
    d: &D,
    equation: D::Node,
    equations: &mut Nodes<D::Node>,
) -> Result<(), NoMemory>
    requires { IsCondition (D.look d.now equation) }
    ensures { OnOk result (map (D.look d.now) equations.new ≡ with_equation (map (D.look d.now) equations.old) (D.look d.now equation)) }
{
    if is_known_as(d, &equation, true) {
        return Ok(());
    }
    equations.push(equation)?;
    Ok(())
}

/// Whether some equation is known to be false, so that no valuation makes all of them true. It takes no memory.
pub(crate) fn are_dead<D: Domain>(d: &D, equations: &[D::Node]) -> bool
    requires { All IsCondition (map (D.look d.now) equations.now) }
    ensures { result ≡ list_any (known_as false) (map (D.look d.now) equations.now) }
{
    for equation in equations {
        if is_known_as(d, equation, false) {
            return true;
        }
    }
    false
}
