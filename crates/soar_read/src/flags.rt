// What the flags of a production say.
ghost use Rattle.std.specs.Prelude.{◌≡◌, map};
ghost use Rattle.soar_rule.specs.declared.production.Kind.TheVariants.{User};
ghost use Rattle.soar_rule.specs.declared.production.Support.TheVariants.{Unset};
ghost use Rattle.defs_read.specs.Expansion.{kind_of, support_of, with_kind, with_support};
ghost use Rattle.tree_parts.specs.Seen.{flag_seen};

use soar_rule::{Kind, Support};
use tree_parts::Flag;

fn with_support(support: Support, flag: Flag) -> Support
    ensures { result ≡ with_support support (flag_seen flag) }
{
    match flag {
        Flag::OperatorSupport => Support::Operator,
        Flag::InstanceSupport => Support::Instance,
        Flag::Default | Flag::Chunk => support,
    }
}

fn with_kind(kind: Kind, flag: Flag) -> Kind
    ensures { result ≡ with_kind kind (flag_seen flag) }
{
    match flag {
        Flag::OperatorSupport | Flag::InstanceSupport => kind,
        Flag::Default => Kind::Default,
        Flag::Chunk => Kind::Chunk,
    }
}

/// The support that the flags ask for.
pub fn support_of(flags: &[Flag]) -> Support
    ensures { result ≡ support_of Unset (map flag_seen flags.now) }
{
    let mut support = Support::Unset;
    'flags: for flag in flags {
        support = with_support(support, *flag);
    }
    support
}

/// Who made the production, as the flags tell.
pub fn kind_of(flags: &[Flag]) -> Kind
    ensures { result ≡ kind_of User (map flag_seen flags.now) }
{
    let mut kind = Kind::User;
    'flags: for flag in flags {
        kind = with_kind(kind, *flag);
    }
    kind
}
