// The forms of an explanation, over what was found of it.
ghost use Rattle.std.specs.Prelude.{◌≡◌, ◌++◌, map, false, true, IfOk};
ghost use Rattle.carried_tests.specs.Seen.{carried_seen};
ghost use Rattle.chunk_forms.specs.Forms.{form_seen};
ghost use Rattle.chunk_make.specs.Drafts.{forms_of, forms_seen};
ghost use Rattle.chunk_make.specs.Findings.{form_over, AreFindings};
ghost use Rattle.defs_soar.specs.Candidate.{general_form, literal_form};
ghost use Rattle.defs_soar.specs.History.{chain_seen};
ghost use Rattle.soar_rule.specs.Conditions.{condition};
ghost use Rattle.soar_rule.specs.declared.production.Kind.{Kind as KindOf};
ghost use Rattle.soar_rule.specs.declared.production.Kind.TheVariants.{Chunk, Justification};
ghost use Rattle.soar_sym.specs.Words.{Texts};

use crate::findings::Findings;
use carried_tests::placed;
use chain_identifiers::Identifiers;
use chunk_forms::{Form, conditions_of, form_of};
use condition_order::GroundOrder;
use soar_sym::{List, NoMemory};
use soar_wm::Element;
use std::alloc::Global;

/// The forms that are there.
#[derive(Drop)]
pub(crate) enum Forms {
    /// None, since no state is among the grounds.
    Neither,
    /// The literal form alone, since an identifier has no variable.
    Literal(Form),
    /// The general form and the literal one.
    Both(Form, Form),
}

pub(crate) fn forms_of(
    alloc: Global,
    told: &Identifiers<'_>,
    found: &Findings,
) -> Result<Forms, NoMemory>
    ensures { (words : Texts) → AreFindings words (chain_seen told.now.chain.now) told.now.depth found.now
        → IfOk result (λ forms. forms_seen forms ≡ forms_of words (chain_seen told.now.chain.now) told.now.depth) }
{
    if !found.grounded {
        return Ok(Forms::Neither);
    }
    let literal = literal_form(alloc, told, found)?;
    if found.missing.is_some() {
        return Ok(Forms::Literal(literal));
    }
    let general = general_form(alloc, told, found)?;
    Ok(Forms::Both(general, literal))
}

fn general_form(alloc: Global, told: &Identifiers<'_>, found: &Findings) -> Result<Form, NoMemory>
    ensures { (words : Texts) → AreFindings words (chain_seen told.now.chain.now) told.now.depth found.now
        → IfOk result (λ form. form_seen Chunk form ≡ general_form words (chain_seen told.now.chain.now) told.now.depth) }
{
    let form = form_over(alloc, told, found, found.order.taken.as_slice(), true)?;
    Ok(form)
}

fn literal_form(alloc: Global, told: &Identifiers<'_>, found: &Findings) -> Result<Form, NoMemory>
    ensures { (words : Texts) → AreFindings words (chain_seen told.now.chain.now) told.now.depth found.now
        → IfOk result (λ form. form_seen Justification form ≡ literal_form words (chain_seen told.now.chain.now) told.now.depth) }
{
    let grounds = all_grounds(alloc, &found.order)?;
    let form = form_over(alloc, told, found, grounds.as_slice(), false)?;
    Ok(form)
}

/// Those that the order reaches, and then the others.
fn all_grounds(alloc: Global, order: &GroundOrder) -> Result<List<Element>, NoMemory>
    ensures { IfOk result (λ grounds. grounds ≡ order.now.taken ++ order.now.left) }
{
    let mut grounds = List::from_slice(alloc, order.taken.as_slice())?;
    grounds.extend_from_slice(order.left.as_slice())?;
    Ok(grounds)
}

/// The form whose positive conditions are these elements.
fn form_over(
    alloc: Global,
    told: &Identifiers<'_>,
    found: &Findings,
    elements: &[Element],
    general: bool,
) -> Result<Form, NoMemory>
    ensures { (kind : KindOf) → IfOk result (λ form. form_seen kind form
        ≡ form_over general kind (chain_seen told.now.chain.now) (map carried_seen found.now.tests.items) (map condition found.now.negations) elements.now) }
{
    let placed = placed(alloc, elements, found.tests.as_slice())?;
    let conds = conditions_of(
        alloc,
        elements,
        placed.as_slice(),
        found.negations.as_slice(),
    )?;
    let form = form_of(
        alloc,
        general,
        conds.as_slice(),
        told.chain.results.as_slice(),
    )?;
    Ok(form)
}
