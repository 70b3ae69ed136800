// The identifiers of elements, each once.
ghost use Rattle.std.specs.Prelude.{◌≡◌, ◌∷◌, [], filter, IfOk, OnOk};
ghost use Rattle.defs_soar.specs.LearnedRules.{identifiers_of};
ghost use Rattle.defs_soar.specs.Results.{with_each_symbol};
ghost use Rattle.defs_soar.specs.Ungrounded.{symbols_of_element};
ghost use Rattle.defs_soar.specs.Values.{is_identifier};

use chain_identifiers::is_among;
use soar_sym::{List, Sym, is_identifier};
use soar_wm::Element;
use std::alloc::{AllocError, Global};

/// The identifiers of elements, in the order in which they first stand there.
pub fn identifiers_of(alloc: Global, elements: &[Element]) -> Result<List<Sym>, AllocError>
    ensures { IfOk result (λ ids. ids ≡ identifiers_of elements.now) }
{
    let mut ids = List::new(alloc);
    'elements: for element in elements {
        add_identifiers(&mut ids, element)?;
    }
    Ok(ids)
}

#[tactic(auto, using(crate::proofs::IdentifierLemmas::ids_then))]
fn add_identifiers(ids: &mut List<Sym>, element: &Element) -> Result<(), AllocError>
    ensures { OnOk result (ids.new ≡ with_each_symbol ids.old (filter is_identifier (symbols_of_element element.now))) }
{
    add_identifier(ids, element.id)?;
    add_identifier(ids, element.attr)?;
    add_identifier(ids, element.value)
}

#[tactic(auto, using(crate::proofs::IdentifierLemmas::joins, crate::proofs::IdentifierLemmas::known, crate::proofs::IdentifierLemmas::other))]
fn add_identifier(ids: &mut List<Sym>, symbol: Sym) -> Result<(), AllocError>
    ensures { OnOk result (ids.new ≡ with_each_symbol ids.old (filter is_identifier (symbol ∷ []))) }
{
    if is_identifier(symbol) && !is_among(ids.as_slice(), symbol) {
        ids.push(symbol)?;
    }
    Ok(())
}
