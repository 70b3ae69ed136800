use generator::script;
use std::test::Fail;

/// Three items, written by hand: the last one has no next one, and of the links only the first is one of an even item.
const THREE: &str = "watch 0
sp {gen*differ (state <s> ^item <i>) (<i> ^next <j>) (<j> ^kind <k>) -(<i> ^kind <k>) --> (<i> ^differs <j>)}
sp {gen*last (state <s> ^item <i>) -(<i> ^next <j>) --> (<s> ^last <i>)}
input add S1 ^item <i0>
input add <i0> ^kind 0
input add <i0> ^next <i1>
input add S1 ^item <i1>
input add <i1> ^kind 1
input add <i1> ^next <i2>
input add S1 ^item <i2>
input add <i2> ^kind 2
run 1
input remove <i0> ^next <i1>
run 1
stats
";

#[test]
fn three_items_are_these_commands(rt: HostRuntime) -> Result<(), Fail> {
    assert!(rt; script(rt.alloc(), 3)?.as_str() == THREE);
    Ok(())
}
