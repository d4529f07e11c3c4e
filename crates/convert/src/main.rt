// Converts an old trace: looks through IN, and writes OUT where it can be converted. What goes wrong is said on standard error, and
// then OUT is as it was.
#![tactic(auto)]

mod night;

use files::program::names;
use files::told;
use std::rt::HostRuntime;

fn main(rt: HostRuntime) {
    let named = names(
        rt,
        b"convert",
        b"usage: convert [--progress] IN OUT\n\
        Makes the old trace IN, in which a request without an age counted as age 0, a trace for today's door, OUT.\n\
        \n\
        In each whole pair that the old reading takes (records of 8 to 126 bytes) a request of kind 0x0001\n\
        becomes one of kind 0x0002 with age 0, two bytes longer; all else is copied, and so is everything\n\
        from where the old reading ends. OUT replays today as IN did. It is written whole or not at all,\n\
        and IN is not touched. IN is read twice, so it is a file.\n\
        \n\
        converted n     is printed when OUT is there, n the requests that were changed\n\
        not converted   where the old reading ends at a record length of 127 or 128, which today's takes:\n\
        \x20               then nothing is written\n\
        \n\
        --progress  tells on standard error how many bytes were read\n\
        -h, --help  writes this text;  --version  writes the version\n\
        Exit status: 0 converted, 1 not converted, 2 trouble.\n",
        2,
        2,
    );
    if let Some(named) = named {
        told::verdict(night::convert(rt, named));
    }
}
