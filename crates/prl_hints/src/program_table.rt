//! Hints at places of programs.

/// The rows.
static ROWS: [&str; 51] = [
    "over \u{feff} The file begins with a mark of byte order, which is no character of \
        the language. Save it as UTF-8 without one.",
    "over == An equation has one `=`. A comparison stands in the body of an imported \
        node, and there equality is `=` too.",
    "over := An equation is written with `=` alone.",
    "over != A comparison stands in the body of an imported node, and there `a <> b` is \
        what `a != b` is elsewhere.",
    "over && A truth value is worked out in the body of an imported node, and there `and` \
        stands for `&&`.",
    "over || A truth value is worked out in the body of an imported node, and there `or` \
        stands for `||`.",
    "over // A comment begins with `--`, or stands between `(*` and `*)`.",
    "over /* A comment begins with `--`, or stands between `(*` and `*)`.",
    "over # A comment begins with `--`, or stands between `(*` and `*)`.",
    "over ^* What repeats values is written `*^`, with the star first, and what takes \
        every k-th one `/^`.",
    "over <- An equation is written `NAME = EXPRESSION;`, also for what another language \
        sends by `<-`.",
    "over -> A first value is written `c fby x`, which is c and then x one period late, \
        or `c :: x`, which puts c before all of x. In Lustre `c -> pre x` is `c fby x`. The \
        outputs of a node stand behind `returns`.",
    "here when There is no `when`: `x /^ k` takes every k-th value of x, and a choice by \
        a truth value is made in the body of an imported node, as `if(c, a, b)`.",
    "here merge There is no `merge`: a choice by a truth value is made in the body of an \
        imported node, as `if(c, a, b)`.",
    "before pre There is no `pre`: `c fby x` is the value of x one period before, and c at first.",
    "before current There is no `current`: `x *^ k` has each value of x k times, at k \
        times its rate.",
    "before if A choice is made in the body of an imported node, as `if(c, a, b)`. A node \
        only connects flows.",
    "here if A choice is made in the body of an imported node, as `if(c, a, b)`. A node \
        only connects flows.",
    "before max Arithmetic stands in the body of an imported node, where `if(a > b, a, \
        b)` is the greater one of a and b.",
    "before not A truth value is worked out in the body of an imported node.",
    "here and A truth value is worked out in the body of an imported node. A node only \
        connects flows.",
    "here or A truth value is worked out in the body of an imported node. A node only \
        connects flows.",
    "before rate A rate is written `rate (PERIOD, PHASE)`, with both in parentheses: \
        `rate (10, 0)` has a value every 10 ticks, from tick 0 on.",
    "group rate A rate is written `rate (PERIOD, PHASE)`, as `rate (10, 0)`: PERIOD is a \
        number of ticks, with no unit behind it and no fraction, and PHASE tells how many \
        periods later the first value comes, as a whole number or a ratio: `rate (10, 1/2)` \
        starts at tick 5.",
    "before due A due is a number of ticks without parentheses, as in `o: int due 5`.",
    "before wcet A WCET is a whole number of ticks with no unit and no `=`, as in `wcet 2;`.",
    "before phase A phase stands behind the period, as in `rate (10, 1/2)`.",
    "here integer The types are `int` and `bool`.",
    "here Integer The types are `int` and `bool`.",
    "here boolean The types are `int` and `bool`.",
    "here Boolean The types are `int` and `bool`.",
    "here float The types are `int` and `bool`. There are no fractions: choose a finer \
        unit, as thousandths.",
    "here real The types are `int` and `bool`. There are no fractions: choose a finer \
        unit, as thousandths.",
    "here double The types are `int` and `bool`. There are no fractions: choose a finer \
        unit, as thousandths.",
    "here Int The types are `int` and `bool`, in small letters.",
    "here Bool The types are `int` and `bool`, in small letters.",
    "before end A node ends with `tel`, and what stands between `let` and `tel` are equations.",
    "here end A node ends with `tel`.",
    "before begin The equations of a node stand between `let` and `tel`.",
    "here begin The equations of a node stand between `let` and `tel`.",
    "here return The outputs of a node stand behind `returns`, with an s.",
    "before return The outputs of a node stand behind `returns`, with an s. An equation \
        is `NAME = EXPRESSION;`.",
    "over { The equations of a node stand between `let` and `tel`, not in braces.",
    "here body This is how a text of bodies begins: bodies are the file of `--bodies`, \
        and the program is that of `--program`.",
    "here table This is how a table begins: that is the file of `--table`, and the \
        program is that of `--program`.",
    "here tick This is how a schedule begins: that is the file of `--schedule`, and the \
        program is that of `--program`.",
    "here act This is how a schedule begins: that is the file of `--schedule`, and the \
        program is that of `--program`.",
    "here plan This is how the text of a plan begins; the program is the file of `--program`.",
    "here const There are no named constants: write the number itself, or make it the \
        output of an imported node.",
    "here type There are no types of one's own: the types are `int` and `bool`.",
    "here function A node of one's own begins with `node`, and one whose body is given by \
        `--bodies` with `imported node`.",
];

/// The rows.
pub(crate) fn program_rows() -> &'static [&'static str] {
    &ROWS
}

/// The rows at names that are not known.
static NAMES: [&str; 9] = [
    "here if A choice is made in the body of an imported node, as `if(c, a, b)`. A node \
        only connects flows.",
    "here pre There is no `pre`: `c fby x` is the value of x one period before, and c at first.",
    "here current There is no `current`: `x *^ k` has each value of x k times, at k times \
        its rate.",
    "here when There is no `when`: `x /^ k` takes every k-th value of x, and a choice by \
        a truth value is made in the body of an imported node.",
    "here merge There is no `merge`: a choice by a truth value is made in the body of an \
        imported node, as `if(c, a, b)`.",
    "here max Arithmetic stands in the body of an imported node, where `if(a > b, a, b)` \
        is the greater one of a and b.",
    "here min Arithmetic stands in the body of an imported node, where `if(a < b, a, b)` \
        is the less one of a and b.",
    "here abs Arithmetic stands in the body of an imported node, where `if(a < 0, -a, a)` \
        is the size of a.",
    "here not A truth value is worked out in the body of an imported node.",
];

/// The rows at names that are not known.
pub(crate) fn name_rows() -> &'static [&'static str] {
    &NAMES
}
