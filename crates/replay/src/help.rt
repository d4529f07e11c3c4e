// `replay --help`.
pub const TEXT: &[u8] = b"usage: replay [--progress] [--] [FILE]\n\
    \x20      replay --list [FILE]\n\
    \x20      replay --show N [FILE]\n\
    Reads a recorded trace, FILE or standard input (no FILE, or -), asks the door afresh and writes\n\
    \x20 calls n   whole pairs of a request and its reply\n\
    \x20 same n    recorded replies that are today's, byte for byte\n\
    \x20 differ n  recorded replies that are not\n\
    \x20 first n   the number of the first that is not, counted from 1, or 0\n\
    \x20 rest n    bytes from the start of the pair at which the reading ended\n\
    A trace that cannot be read to its end gives a message on standard error and none of\n\
    these lines.\n\
    --list        writes a line for each pair whose reply differs instead: its number, where it\n\
    \x20             begins in the trace, the request's kind and form, and what differs first;\n\
    \x20             and at the end where and why the reading ended\n\
    --show N      writes pair N in words instead, the recorded reply beside today's (also --show=N)\n\
    --progress    tells on standard error how far the reading is: every second on a terminal,\n\
    \x20             every five seconds elsewhere, and at the end\n\
    -h, --help    writes this text;  --version  writes the version\n\
    Exit status: 0 nothing differs and nothing is left, 1 something differs or is left, 2 trouble\n\
    (with --show: 0 the reply is today's, 1 it is not, 2 trouble, or there is no such pair).\n\
    In a crontab:  replay --progress /nights/last || mail -s 'replay: look at the night' yard\n";
