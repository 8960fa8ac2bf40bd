//! What is to be said of the lines of programs and bodies.

/// The rows of these lines.
static ROWS: [&str; 25] = [
    "1 bad token at |\n|\
        No word, number or symbol of the language begins here. Take this character out; or, if it \
        opens a comment by (*, close the comment by *). Numbers have no fraction: choose a finer \
        unit.",
    "2 unexpected at |\n|\
        Something else has to stand here. Look just before the mark for a missing comma, \
        semicolon or bracket, and at the mark for a keyword that is used as a name. A node only \
        connects flows: arithmetic, comparisons and choices stand in the bodies of imported \
        nodes. A comment begins with `--`.",
    "3 number range at |\n|\
        This number is out of its range. A period, a factor, a wcet and a denominator are 1 to \
        2147483647, a numerator and a due 0 to 2147483647; a constant has 64 bits with its sign.",
    "10 unknown |\n|\
        No import, sensor, actuator, node or variable `\x00` can be seen where it is used. \
        Mend its spelling, where capital letters count, or declare it: an input of main by \
        `sensor \x00 wcet N;`, an output of main by `actuator \x00 wcet N;`. Main is the \
        last node of the text: where another one is meant, put that one last or name it by \
        `--node`.",
    "11 twice |\n|\
        `\x00` stands for two things, or has two equations, or is an input and has one; the mark \
        is under its first place, in a node if it stands in one. Give one of the two things \
        another name, or take out the equation that is too much.",
    "12 arity at |\n|\
        The numbers of flows differ. Where the mark is under the name of a node, write as many \
        arguments as it declares inputs; under the first word of an equation, as many names on \
        the left as the right side gives flows, which are the outputs that a node declares; an \
        operator takes one flow.",
    "13 mismatch at | wanted int found bool\n|\
        A Boolean stands where an integer is needed. Change the value, or the type that is \
        declared for it. Where the value is right here, what first gave it its type is wrong.",
    "13 mismatch at | wanted bool found int\n|\
        An integer stands where a Boolean is needed. Change the value, or the type that is \
        declared for it. Where the value is right here, what first gave it its type is wrong.",
    "14 no main|\n|\
        No node can be main: the program has none, or none of the name after `--node`; an \
        imported node is none. Write one node whose inputs are all sensors and whose outputs \
        are all actuators, or name it by `--node` as the program spells it.",
    "15 undefined |\n|\
        No equation says what `\x00` is, an output or a variable. Write one, with its name on the \
        left.",
    "16 recursive |\n|\
        Node `\x00` uses itself, directly or through others. Nodes may not: delay a flow by `fby` \
        where a value of the past is meant.",
    "17 type free |\n|\
        Nothing says whether `\x00` is an integer or a Boolean. Declare its type, as in `x: int`.",
    "20 body missing |\n|\
        The bodies have none for the imported node `\x00`, or no bodies are named. Write \
        `body \x00 { .. }` for it in the file of `--bodies`, spelt as the import is: capital \
        letters count.",
    "21 body arity at |\n|\
        This body does not say what each output is. Write one statement for each output of the \
        imported node.",
    "22 body type at |\n|\
        An integer stands where a Boolean is needed, or the other way round. Change the \
        expression, or the type that the import declares.",
    "23 body syntax at |\n|\
        Something else has to stand here, or this number is out of range. Look just before the \
        mark for a missing semicolon, bracket or operator. A choice is written `if(c, a, b)`.",
    "24 body name at |\n|\
        This name is not known here, or is given twice. On the left may stand the outputs that \
        the import declares and the body's registers, on the right its inputs and registers: an \
        output can not be read. It has no other variables: write the expression out, or a \
        register, which keeps its value for the next job.",
    "30 cycle |\n|\
        Flow `\x00` is made of itself, and round the loop either no delay stands or no \
        imported node. Delay it somewhere around the loop, as `0 fby x` does, and let the \
        loop go through an imported node, which gives its value by a job of its own; `::` \
        and `tail` do not delay.",
    "40 clock mismatch at |\n|\
        The flow has one rate by its own equation and another by its use or by what is \
        declared. Bring both to one rate by *^, /^ or ~>, or change the declared rate. What \
        stands behind a flow is done before what stands in front of it: `0 fby x *^ 3` is `0 \
        fby (x *^ 3)`, and `(0 fby x) *^ 3` has other values.",
    "41 clock free |\n|\
        Nothing says at what rate `\x00` runs. Declare `rate (PERIOD, PHASE)` for an input or \
        output that it is connected to.",
    "42 not whole |\n|\
        `\x00` would run with period \x02 from date \x04 on; both have to be whole ticks, and no \
        date is below 0. Choose a finer tick, that is larger periods, or other factors and \
        phases.",
    "50 due on non-task |\n|\
        A due is the deadline of a task, and `\x00` is not the result of one. Put it on an input \
        or an output of main, or on a result of an imported node.",
    "51 due range |\n|\
        `\x00` has due \x02 and period \x04, and a due is 1 to the period. Choose one of these.",
    "60 narrow |\n|\
        Job \x01 of \x00 ends at \x03 at the earliest, and has to end by \x05: it takes too \
        long, with the jobs that it waits for. Look first for a task whose wcet is above its \
        period or its due: it can not keep up, and may make jobs late that wait for it. Else \
        allow a later deadline, make a wcet smaller, or put a delay between them.",
    "61 loop |\n|\
        Job \x01 of \x00 waits for a loop of jobs that wait for one another: each turn of it \
        needs more time than it has. Put a longer delay into the loop, or make a wcet smaller.",
];

/// The rows of these lines.
pub(crate) fn program_rows() -> &'static [&'static str] {
    &ROWS
}
