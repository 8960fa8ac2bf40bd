//! What is to be said of the lines of schedules, sensor rows, tables and processors.

/// The rows of these lines.
static ROWS: [&str; 21] = [
    "70 schedule syntax line |\n|\
        Line \x00 is no event. Write `tick`, or `act` and the name of a task of the plan, with \
        one blank between. The task of an import is its name, `@` and a number, as in `act F@0`.",
    "71 illegal line | rule L1\n|\
        Line \x00 acts too early: the next job of its task is not released yet at this tick. Put \
        a `tick` before the act, or move the act down. On several processors a job waits for the \
        encoded deadline of a job that it reads from another one.",
    "71 illegal line | rule L2\n|\
        Line \x00 is of a task that has no job left to do before `--until`. Take the act out, or \
        ask for more ticks.",
    "71 illegal line | rule L3\n|\
        Line \x00 overtakes a job that is more urgent: a released job whose encoded deadline is \
        earlier has to act first. On several processors that is a job of the same one.",
    "71 illegal line | rule L4\n|\
        Time may not pass by line \x00: a job that has not ended would miss its encoded deadline, \
        or the run is over at `--until`. Let the job act before this tick, or take the tick out.",
    "72 unfinished |\n|\
        The schedule ends before job \x01 of \x00 does; jobs count from 0. Add the acts that are \
        missing.",
    "80 row |\n|\
        Row \x00 has not three fields. Write NAME,INSTANCE,VALUE.",
    "81 no sensor |\n|\
        The main node has no input of the name in row \x00. Mend the name, or take the row out. \
        Only the line `name,instance,value` is a header.",
    "82 order |\n|\
        The instance in row \x00 does not follow. The rows of each sensor count from 0, one by \
        one, and no blank stands around a comma.",
    "83 value |\n|\
        The value in row \x00 is none of the sensor's type: write an integer of 64 bits, or \
        `true` or `false`.",
    "84 short |\n|\
        There are \x01 rows for sensor `\x00`, and the run reads \x02. Add rows, or ask for fewer \
        ticks.",
    "90 overload |\n|\
        In the run from which a table would be cut, the jobs that are released at \x00 or later \
        and due by \x01 ask for \x03 ticks, and there are \x05. One processor has not the \
        time for them, and no other table would help. Make a wcet smaller, allow a later \
        deadline, or choose longer periods.",
    "91 unsteady at |\n|\
        At tick \x00 the processor does not do what it does one hyperperiod later. That comes \
        only where the jobs of a hyperperiod cost more ticks than it has, so no other table \
        would help. Make a wcet smaller, or choose longer periods.",
    "92 too far |\n|\
        The run from which a table would be cut goes up to date \x00, and may go up to \
        2147483647. Choose smaller phases or a coarser tick, or write a table by hand.",
    "93 table syntax line |\n|\
        Line \x00 is not what has to stand here. Write `table 1`, then `hyperperiod H` with the \
        hyperperiod of the plan, then lines `at X task K job C units U` that ascend by X, K and \
        C; one line feed ends each line, the last one too.",
    "94 piece |\n|\
        Line \x00 names no task of the plan or no job of a hyperperiod, has no units, or leaves \
        the window between the encoded dates of its job. `prelude plan` tells the tasks by their \
        numbers, and their dates.",
    "95 units |\n|\
        The units that the table gives job \x01 of \x00 are not together its wcet. Add units or \
        take some out.",
    "96 clash |\n|\
        The entry of line \x00 has a tick in common with that of line \x01, in the same \
        hyperperiod or some hyperperiods later, and there is one processor. Move one of them.",
    "97 order edge |\n|\
        On edge \x00 job \x02 of the consumer begins before the job that it waits for has its \
        last unit. Move the entries of the job that waits behind those of the other one; `prelude \
        plan` tells the edges by their numbers.",
    "98 core syntax line |\n|\
        Line \x00 of the text of processors does not place a task. Write the name of a task of \
        the plan, one blank and the number of its processor, from 0 to 15, and each task once.",
    "99 core missing |\n|\
        The text of processors has no line for task \x00. Add one, `\x00 P`, with the number P of \
        its processor from 0 to 15.",
];

/// The rows of these lines.
pub(crate) fn run_rows() -> &'static [&'static str] {
    &ROWS
}
