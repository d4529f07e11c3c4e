// `ask --help`: the format of a request line and of an answer line, on one screen.
pub const TEXT: &[u8] = b"usage: ask [--names] [--] [FILE]..\n\
    Answers the request lines of each file, or of standard input where no file is named or a file is -.\n\
    \n\
    A request line is whole numbers with blanks between them: spaces, tabs, carriage returns.\n\
    \x20 form first second N   0 to 4294967295 each\n\
    \x20 count value..         0 to 64 control values, -2147483648 to 2147483647 each\n\
    \x20 count number..        0 to 64 path numbers within the same bounds\n\
    \x20 exact points          if wanted, the room for numerators and for points, 0 to 64\n\
    \x20 age=251               if wanted, the tilt sample's age in milliseconds, 0 to 65535\n\
    The age is the last word. An age that is not given counts as 0.\n\
    A number is digits, with - before them below 0. A line is at most 4096 bytes long.\n\
    Lines of blanks alone and lines that begin with # are passed over.\n\
    \n\
    The answer line is\n\
    \x20 number place count entries | numerators | points\n\
    number: 0 accepted, 1 KIND, 2 DEGREE, 3 SURFACE, 4 PATH, 5 ROOM, 6 VALUE,\n\
    7 PARAMETER, 8 BALANCE, 10 STALE: an age above 250, tested right after DEGREE.\n\
    entries: how many net entries were formed; 0 for form 2 and for a refusal.\n\
    Without rooms the first count places of both arrays are shown; with rooms all\n\
    places are, which hold -7 and -9 beforehand. A line that cannot be read is\n\
    answered by `unreadable`, and what is wrong goes to standard error, with the word\n\
    and where it stands:   rides.txt:3:12: \"10x\" is not a whole number\n\
    \n\
    \x20 1 1 0 1 2 0 100 2 0 1024   is answered by   0 0 2 2 | 0 102400 | 0 100\n\
    \n\
    A line that begins with the word tick reads a net at a tick, and its answer line is\n\
    \x20 tick count point.. k  0 to 64 points; k 0 to 4294967295, read at k/1024\n\
    \x20 number place reading  11 MOMENT: k above 1024; the reading in 1/65536 of a unit\n\
    \x20 tick 2 0 100 512           is answered by   0 0 3276800\n\
    A line that begins with the word patch is a patch on a patch, and its answer line is\n\
    \x20 patch n N count value.. count number..   and, if wanted, two rooms\n\
    \x20 number place count | numerators | points\n\
    \n\
    --names     writes refusals by name: STALE 0 0 0 | |\n\
    -h, --help  writes this text;  --version  writes the version\n\
    Exit status: 0 every line was read, 1 a line was unreadable, 2 trouble.\n";
