//! Hints at places of bodies.

/// The rows.
static ROWS: [&str; 48] = [
    "over \u{feff} The file begins with a mark of byte order, which is no character of \
        the language. Save it as UTF-8 without one.",
    "over == Equality is written with one sign: `a = b`.",
    "over != `a != b` is written `a <> b`.",
    "over ! `not` stands for `!`, and `<>` for `!=`.",
    "over && `and` stands for `&&`.",
    "over & `and` stands for `&&`; there are no operators on the bits of a number.",
    "over || `or` stands for `||`.",
    "over | `or` stands for `||`; there are no operators on the bits of a number.",
    "over ** There is no power: write the product, as `a * a`.",
    "over // A comment begins with `--`, or stands between `(*` and `*)`.",
    "over /* A comment begins with `--`, or stands between `(*` and `*)`.",
    "over # A comment begins with `--`, or stands between `(*` and `*)`.",
    "over := A statement is written `NAME = EXPRESSION;`, and a register `reg NAME = CONSTANT;`.",
    "over += A statement is written in full: `k = k + i;`.",
    "over -= A statement is written in full: `k = k - i;`.",
    "over ++ A statement is written in full: `k = k + 1;`.",
    "over => The comparison is written `>=`.",
    "over =< The comparison is written `<=`.",
    "over << There are no operators on the bits of a number: multiply or divide by a \
        power of two.",
    "over >> There are no operators on the bits of a number: multiply or divide by a \
        power of two.",
    "over ^ There is no power: write the product, as `a * a`. `xor` is for truth values.",
    "over ? A choice is written `if(c, a, b)`, which is a where c holds and b where it does not.",
    "over . Numbers are whole: there are no fractions, so `(5 * x) / 10` stands for `0.5 \
        * x`, with the product before the quotient. Choose a finer unit where the rest \
        matters.",
    "over -> There is no `->`: a register has a first value, `reg k = 0;`, and keeps what \
        `k = ..;` gives it for the next job.",
    "before max There is no `max`: `if(a > b, a, b)` is the greater one of a and b.",
    "before min There is no `min`: `if(a < b, a, b)` is the less one of a and b.",
    "before abs There is no `abs`: `if(a < 0, -a, a)` is the size of a.",
    "before sqrt There are no functions but the operators: work it out by `+`, `-`, `*`, \
        `/` and `%` alone, or over several jobs by registers.",
    "before pre There is no `pre`: a register keeps a value for the next job, as `reg k = \
        0;` and `k = i;`.",
    "before body A body is written `body NAME { .. }`: the import declares the inputs, \
        the outputs and their types.",
    "group body A body is written `body NAME { .. }`: the import declares the inputs, the \
        outputs and their types.",
    "before int Numbers and truth values do not become one another by a name in front: \
        write `if(c, 1, 0)` for a number. A register is declared `reg NAME = CONSTANT;`, \
        without a type.",
    "before bool A truth value of a number is a comparison, as `a <> 0`. A register is \
        declared `reg NAME = CONSTANT;`, without a type.",
    "here then A choice is written `if(c, a, b)`, with all three parts, which is a where \
        c holds and b where it does not.",
    "before if A choice is written `if(c, a, b)`, with all three parts, which is a where \
        c holds and b where it does not.",
    "group if A choice is written `if(c, a, b)`, with all three parts: what is there \
        where c does not hold has to be said too.",
    "here mod The remainder is written `a % b`.",
    "here div The quotient without its fraction is written `a / b`.",
    "before let A body has no variables of its own: write the expression out, or keep it \
        by a register for the next job. Statements follow the registers at once.",
    "before var A body has no variables of its own: write the expression out, or keep it \
        by a register for the next job, `reg k = 0;`.",
    "before return A statement gives an output by its name, as `o = i + j;`.",
    "here return A statement gives an output by its name, as `o = i + j;`.",
    "here fby There is no `fby` in bodies: a register keeps a value for the next job, as \
        `reg k = 0;` and `k = i;`.",
    "over : A register is declared `reg NAME = CONSTANT;`, without a type, and the import \
        declares the types of inputs and outputs.",
    "here imported This is how a program begins: that is the file of `--program`, and the \
        bodies are the file of `--bodies`.",
    "here sensor This is how a program begins: that is the file of `--program`, and the \
        bodies are the file of `--bodies`.",
    "here actuator This is how a program begins: that is the file of `--program`, and the \
        bodies are the file of `--bodies`.",
    "here node This is how a program begins: that is the file of `--program`, and the \
        bodies are the file of `--bodies`.",
];

/// The rows.
pub(crate) fn body_rows() -> &'static [&'static str] {
    &ROWS
}
