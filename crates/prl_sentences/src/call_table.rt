//! What is to be said of the lines of words, files, memory and limits.

/// The rows of these lines.
static ROWS: [&str; 22] = [
    "usage: prelude MODE --OPTION VALUE ..|\n|\
        The words after `prelude` are no command. A mode stands first, and then its options in \
        any order, each with one value and none twice; those in brackets may be left out.\n\
        print --program FILE\n\
        check --program FILE [--bodies FILE] [--node NAME]\n\
        plan --program FILE [--node NAME]\n\
        schedule --program FILE --until DATE [--node NAME]\n\
        edf --program FILE --until DATE [--node NAME]\n\
        table --program FILE [--node NAME]\n\
        flows --program FILE --sensors FILE --until DATE [--bodies FILE] [--node NAME]\n\
        replay --program FILE --sensors FILE --schedule FILE --until DATE [--bodies FILE] [--node \
        NAME]\n\
        run --program FILE --sensors FILE --until DATE [--bodies FILE] [--node NAME] [--workers \
        COUNT] [--clock gated|free]\n\
        cycle --program FILE --sensors FILE --table FILE --until DATE [--bodies FILE] [--node \
        NAME]\n\
        cores --program FILE --sensors FILE --cores FILE --until DATE [--bodies FILE] [--schedule \
        FILE] [--node NAME]\n\
        generate --seed NUMBER --size LANES\n\
        A DATE is 0 to 2147483647, a COUNT 1 to 16, a NUMBER below 2^64, and there are 1 to 20 \
        LANES.",
    "read fault |\n|\
        This file was found and could not be read to its end. Look at its permissions and at its \
        disk.",
    "write fault|\n|\
        The text could not be written whole. Look for a full disk, or for a reader that has gone.",
    "memory|\n|\
        Memory ran out before the text was whole. Nothing is said about the program: run it again \
        with more memory, or for fewer ticks.",
    "absent |\n|\
        There is no file of this name. Mend the name, or the folder that the command is run in.",
    "too long |\n|\
        This file has more bytes than may be read: 1 MB for a program or bodies, 32 MB for sensor \
        rows, 80 MB for a schedule, 16 MB for a table, 64 KB for a text of processors. Take out \
        what the command does not need, or run it for fewer ticks.",
    "overrun |\n|\
        Job \x01 of \x00 asked on its input \x03 for a value that a later one had already \
        replaced in cell \x05: there it wanted the number \x07 and found \x09, where instance N \
        of a flow has the number N + 1. Under the free clock a job came too late. Run under the \
        gated clock, or see that each job ends by its encoded deadline.",
    "overload |\n|\
        One processor can not serve the jobs of this run: those that are released at \x00 or later \
        and due by \x01 ask for \x03 ticks, and there are \x05. Make a wcet smaller, allow a \
        later deadline, or choose longer periods; a delay by `fby` between two tasks gives their \
        jobs more time. Mode `cores` has several processors.",
    "4 limit name found |\n|\
        A name has \x00 bytes, and may have 64. Shorten it.",
    "4 limit depth found |\n|\
        At one place \x00 parentheses are open, and 64 may be. Give a part of the expression a \
        name of its own.",
    "4 limit nodes found |\n|\
        The program has \x00 nodes or more, and may have 256. Join some, or take out those that \
        main does not use.",
    "4 limit flows found |\n|\
        The program expands to \x00 flows or more, and may to 4096. Each use of a node counts \
        anew: use it less often, or make it an imported node.",
    "4 limit clock found |\n|\
        The clocks need numbers of \x00 or above, and may have numbers up to 2147483647. Choose \
        periods that divide one another, and smaller factors.",
    "4 limit tasks found |\n|\
        The program has \x00 tasks, and may have 64: they are its sensors, its actuators and its \
        uses of imported nodes. Join imported nodes of one rate.",
    "4 limit edges found |\n|\
        The tasks read one another on \x00 edges, and may on 512. Join tasks that read much from \
        each other.",
    "4 limit hyperperiod found |\n|\
        The periods come round together after \x00 ticks or more, and have to after 10000000 at \
        most. Choose periods with more common factors, or a coarser tick.",
    "4 limit period-jobs found |\n|\
        One hyperperiod has \x00 jobs, and may have 20000. Choose periods that are closer to one \
        another.",
    "4 limit prefix found |\n|\
        Over all edges \x00 initial values are read, and 1000000 may be. Use smaller factors \
        around `fby` and `::`.",
    "4 limit cells found |\n|\
        The buffers need \x00 cells, and may have 4096. Use fewer delays, or smaller factors of \
        *^ and /^.",
    "4 limit jobs found |\n|\
        Before `--until`, or in the run from which a table would be cut, there are \x00 jobs, and \
        may be 200000. Ask for fewer ticks.",
    "4 limit events found |\n|\
        Before `--until`, or in the run from which a table would be cut, the schedule has \x00 \
        events, and may have 1000000. Ask for fewer ticks.",
    "4 limit values found |\n|\
        Before `--until` the flows have \x00 values, and may have 4000000. Ask for fewer ticks.",
];

/// The rows of these lines.
pub(crate) fn call_rows() -> &'static [&'static str] {
    &ROWS
}
