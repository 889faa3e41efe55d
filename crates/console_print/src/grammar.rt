// The grammar, as `help` prints it.
ghost use Rattle.std.specs.Prelude.{◌≡◌, ◌++◌, OnOk, string_bytes};
ghost use Rattle.console_print.specs.Grammar.{help_lines};

use std::alloc::{AllocError, Allocator};

const GRAMMAR: &str = "\
open K M N T D A MASK [filter] [itu] [orn]
row R K MASK [filter] [itu] [orn]
receive HEX
command C
clear BITS
send HEX
fill
read S
hand S
wipe
size pool N
size desc N
size records N
size output N
size auto
poke pool I V
poke desc I V
show
slots
help
end
";

#[tactic(auto, unfolding(crate::specs::Grammar::help_lines))]
pub fn put_help<A: Allocator>(text: &mut String<A>) -> Result<(), AllocError>
    ensures { OnOk result (string_bytes text.new ≡ string_bytes text.old ++ help_lines) }
{
    text.push_str(GRAMMAR)
}
