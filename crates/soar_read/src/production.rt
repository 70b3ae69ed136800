// The production of a tree.
ghost use Rattle.std.specs.Prelude.{◌≡◌, ◌<◌, true, length, map, IfOk};
ghost use Rattle.soar_rule.specs.Below.{actions_below, conds_below};
ghost use Rattle.soar_rule.specs.Conditions.{condition};
ghost use Rattle.soar_rule.specs.Productions.{action_seen, production_seen};
ghost use Rattle.soar_rule.specs.Symbols.{AreKnown, symbols_of};
ghost use Rattle.defs_read.specs.FreshNames.{expanded};
ghost use Rattle.defs_read.specs.Sayings.{AreTokensKnown};
ghost use Rattle.tree_parts.specs.Seen.{tree_seen};
ghost use Rattle.soar_read.specs.Answers.{meaning};
ghost use Rattle.soar_read.specs.Meaning.{actions_from, completed, conditions_from, meaning_from, IsHead, IsMeant};
ghost use Rattle.read_parts.specs.Naming.{are_kept, fresh_seen, used_texts};
ghost use Rattle.read_parts.specs.Using.{AreUses};
ghost use Rattle.read_parts.specs.Words.{texts_of};

use crate::actions::actions;
use crate::conditions::conditions;
use crate::fault::ReadFault;
use crate::flags::{kind_of, support_of};
use crate::joining::join_all;
use defs_text::Token;
use read_parts::{Names, Source, Uses, uses_of};
use soar_rule::{Action, Cond, Kind, Production, Support};
use soar_sym::{List, NoMemory, Sym, SymTable, Text};
use std::alloc::Global;
use tree_parts::Tree;

/// The parts of a production, before the names of its new variables join the table.
#[derive(Drop)]
pub struct Body {
    pub name: Sym,
    pub doc: Option<Text>,
    pub kind: Kind,
    pub support: Support,
    pub conds: List<Cond>,
    pub actions: List<Action>,
    pub names: Names,
}

fn copy_doc(alloc: Global, doc: &Option<Text>) -> Result<Option<Text>, NoMemory>
    ensures { IfOk result (λ copy. copy ≡ doc.now) }
{
    match doc {
        None => Ok(None),
        Some(text) => Ok(Some(Text::from_str(alloc, text.as_str())?)),
    }
}

/// What the parts of a tree come to.
fn expand(source: &Source<'_>, tree: &Tree) -> Result<Body, NoMemory>
    ensures head { IfOk result (λ b. IsHead source.now.table.now tree.now b) }
    ensures conditions { IfOk result (λ b. (conditions_from source.now.table.now (used_texts source.now) tree.now).value ≡ map condition b.conds) }
    ensures actions { IfOk result (λ b. actions_from source.now.table.now (used_texts source.now) tree.now ≡ expanded (map action_seen b.actions) (fresh_seen source.now b.names)) }
    ensures kept { IfOk result (λ b. are_kept source.now b.names ≡ true) }
{
    let name = source.word(tree.name)?;
    let doc = copy_doc(source.alloc, &tree.doc)?;
    let mut names = Names::new(source.alloc);
    let conds = conditions(source, &mut names, &tree.part, tree.parts.as_slice())?;
    let actions = actions(source, &mut names, tree.actions.as_slice())?;
    Ok(Body {
        name,
        doc,
        kind: kind_of(tree.flags.as_slice()),
        support: support_of(tree.flags.as_slice()),
        conds,
        actions,
        names,
    })
}

/// The production of these parts, with the words of its variables' names.
fn complete(body: Body, vars: List<Sym>) -> Production
    requires conds { conds_below (length vars) body.conds ≡ true }
    requires actions { actions_below (length vars) body.actions ≡ true }
    ensures { production_seen result ≡ completed body vars }
{
    Production {
        name: body.name,
        doc: body.doc,
        kind: body.kind,
        support: body.support,
        vars,
        conds: body.conds,
        actions: body.actions,
    }
}

/// The production of a tree in whose text these words are.
fn joined(
    alloc: Global,
    table: &mut SymTable,
    uses: &Uses,
    tree: &Tree,
) -> Result<Production, ReadFault>
    requires are { AreUses table.old uses.now }
    requires room { 5 < length table.old }
    ensures meant { IsMeant table.old table.new (meaning_from table.old (texts_of table.old uses.now.used) tree.now) result }
    ensures known { IfOk result (λ p. AreKnown table.new (symbols_of (production_seen p))) }
{
    let source = Source { alloc, table, uses };
    let body = expand(&source, tree)?;
    let vars = join_all(alloc, table, body.names.list.as_slice())?;
    Ok(complete(body, vars))
}

/// The production of a tree that the tokens spell. The names of its new variables join the table.
pub fn production(
    alloc: Global,
    table: &mut SymTable,
    tokens: &[Token],
    tree: &Tree,
) -> Result<Production, ReadFault>
    requires { AreTokensKnown table.old tokens.now }
    ensures meant { IsMeant table.old table.new (meaning table.old tokens.now (tree_seen table.old tree.now)) result }
    ensures known { IfOk result (λ p. AreKnown table.new (symbols_of (production_seen p))) }
{
    table.law();
    let uses = uses_of(alloc, table, tokens)?;
    joined(alloc, table, &uses, tree)
}
