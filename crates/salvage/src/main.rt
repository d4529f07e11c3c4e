// Salvages a torn trace: reads IN, writes the pairs that the door answers so today to OUT, which stands there whole or not at all, and
// tells on standard output which bytes were skipped. What goes wrong is said on standard error, and then OUT is as it was.
#![tactic(auto)]

mod torn_trace;

use files::program::names;
use files::told;
use std::rt::HostRuntime;

fn main(rt: HostRuntime) {
    let named = names(
        rt,
        b"salvage",
        b"usage: salvage [--progress] IN OUT\n\
        Reads a torn trace, IN (- for standard input), from its first byte: where a request of kind 1\n\
        or 2 and its reply start, both whole, and the door answers that reply today, byte for byte,\n\
        both are kept; else one byte is skipped. Writes the kept pairs to OUT and on standard output\n\
        \x20 skip offset length   each longest run of skipped bytes of IN, in order\n\
        OUT is written whole or not at all: where something goes wrong a message tells what, and OUT\n\
        is as it was. OUT may not be the file that IN is.\n\
        --progress  tells on standard error how far the reading is\n\
        The verdict is 0 where nothing was skipped, 1 where bytes were, 2 where there was trouble.\n",
        2,
        2,
    );
    if let Some(named) = named {
        told::verdict(torn_trace::run(rt, named));
    }
}
