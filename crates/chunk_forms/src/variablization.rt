// The rule of conditions and results, with its identifiers as variables or as they are.
ghost use Rattle.std.specs.Prelude.{◌≡◌, ◌++◌, [], flat_map, length, IfOk};
ghost use Rattle.chunk_forms.specs.Forms.{form_seen};
ghost use Rattle.defs_soar.specs.Candidate.{form_of};
ghost use Rattle.defs_soar.specs.History.{ChainOf};
ghost use Rattle.defs_soar.specs.Variablized.{each_variablized_once, variablized_in_conditions, variablized_in_wish};
ghost use Rattle.soar_rule.specs.Conditions.{conditions};
ghost use Rattle.soar_rule.specs.Productions.{production_seen};
ghost use Rattle.soar_rule.specs.declared.production.Kind.{Kind as KindOf};

use crate::form::Form;
use chunk_variables::{Given, actions_of, variables_in};
use condition_copies::conds_with;
use defs_soar::Wish;
use soar_rule::{Cond, Kind, Production, Support};
use soar_sym::{List, NoMemory, Sym};
use std::alloc::Global;

/// The rule of conditions and results over symbols: in the general form identifiers are variables, in the literal form
/// they stay, and only negations have variables of their own (Soar manual, chapter 4, variablization).
///
/// An identifier of a letter outside `A` to `Z`, which the engine does not make, has no name in the general form: it is
/// answered as want of memory.
pub fn form_of(
    alloc: Global,
    general: bool,
    conds: &[Cond],
    results: &[Wish],
) -> Result<Form, NoMemory>
    ensures { (kind : KindOf) (c : ChainOf) → c.results ≡ results.now → IfOk result (λ form. form_seen kind form ≡ form_of general kind c (conditions conds.now)) }
{
    let variables = variables_in(alloc, general, conds, results)?;
    let given = Given {
        general,
        variables: &variables,
    };
    form_by(alloc, &given, conds, results)
}

/// The rule by the variables of what stands in it.
fn form_by(
    alloc: Global,
    given: &Given<'_>,
    conds: &[Cond],
    results: &[Wish],
) -> Result<Form, NoMemory>
    requires { given.now.variables.now ≡ each_variablized_once [] (variablized_in_conditions given.now.general (conditions conds.now) ++ flat_map (variablized_in_wish given.now.general) results.now) }
    ensures { (kind : KindOf) (c : ChainOf) → c.results ≡ results.now → IfOk result (λ form. form_seen kind form ≡ form_of given.now.general kind c (conditions conds.now)) }
{
    let conds = conds_with(alloc, given, conds)?;
    let actions = actions_of(alloc, given, results)?;
    let names = given.variables.names(alloc)?;
    Ok(Form {
        conds,
        actions,
        names,
    })
}

impl Form {
    /// The rule, once the names of its variables are words.
    pub fn into_production(self, kind: Kind, vars: List<Sym>) -> Production
        requires { length vars ≡ length self.names }
        ensures { production_seen result ≡ record (form_seen kind self).production { vars = vars } }
    {
        Production {
            name: Sym::Int(0),
            doc: None,
            kind,
            support: Support::Unset,
            vars,
            conds: self.conds,
            actions: self.actions,
        }
    }
}
