//! The generated texts. Their sizes, hashes, first and last lines are those that `bench/generated` works out from the rule.

use prl_bodytext::parse_bodies;
use prl_gen::{Texts, generate};
use prl_print::print;
use prl_syntax::parse;
use sha2::{Digest, Sha256};
use std::alloc::Global;
use std::test::*;

/// What is known of a text.
#[derive(Clone, Copy)]
struct Known {
    len: usize,
    first: &'static [u8],
    last: &'static [u8],
    digest: &'static str,
}

/// Whether the text is as long, begins and ends so, and has this hash.
fn is_as_known(alloc: Global, text: &[u8], known: &Known) -> bool {
    match hex::encode(alloc, Sha256::digest(text)) {
        Ok(digest) => {
            text.len() == known.len
                && text.starts_with(known.first)
                && text.ends_with(known.last)
                && digest.as_str() == known.digest
        }
        Err(_) => false,
    }
}

const PROGRAM_OF_ONE: &[u8] = b"imported node f0(x: int; y: int) returns (z: int) wcet 1;
sensor s0 wcet 1;
actuator a0 wcet 1;
node main(s0: rate (160, 0)) returns (a0)
let
  a0 = f0(s0, 0 fby a0);
tel
";

const BODIES_OF_ONE: &[u8] = b"body f0 { z = x + y * 1; }\n";

const SENSORS_OF_ONE: Known = Known {
    len: 1_029,
    first: b"s0,0,374\n",
    last: b"\ns0,99,-505\n",
    digest: "e8f8046d9a4fe3dc0933bbceffb88e4e94c75a11940e1a7a0c6a4d6682f77e7d",
};

/// Whether these are the texts of one lane.
fn are_of_one(alloc: Global, texts: &Texts) -> bool {
    texts.program.as_slice() == PROGRAM_OF_ONE
        && texts.bodies.as_slice() == BODIES_OF_ONE
        && is_as_known(alloc, texts.sensors.as_slice(), &SENSORS_OF_ONE)
}

#[test]
fn one_lane(rt: HostRuntime) -> Result<(), Fail> {
    let texts = generate(rt.alloc(), 1, 1)?;
    assert!(rt; are_of_one(rt.alloc(), &texts));
    Ok(())
}

const PROGRAM_OF_TWENTY: Known = Known {
    len: 3_074,
    first: b"imported node f0(x: int; y: int) returns (z: int) wcet 1;\n",
    last: b"\ntel\n",
    digest: "b7bbc0336f547599e58512dc4196c8bb497e829c92559cb3b160254ec3fe475f",
};

const BODIES_OF_TWENTY: Known = Known {
    len: 550,
    first: b"body f0 { z = x + y * 2; }\n",
    last: b"\nbody f19 { z = x + y * 1; }\n",
    digest: "5f9fdfd98a75548e7014900f9de9e6b8069314725718f9786b75167362cda332",
};

const SENSORS_OF_TWENTY: Known = Known {
    len: 54_056,
    first: b"s0,0,459\n",
    last: b"\ns19,99,132\n",
    digest: "ef3008297b90d8c3f8fd9376354707c4ee36c02d17af2c71157c76ef9319cf78",
};

/// Whether a program is in its printed form.
fn is_printed(alloc: Global, text: &[u8]) -> bool {
    if text.len() >= 10_000 {
        return false;
    }
    match parse(alloc, text) {
        Ok(program) => match print(alloc, &program) {
            Ok(printed) => printed.as_slice() == text,
            Err(_) => false,
        },
        Err(_) => false,
    }
}

/// How many bodies a text has; none where it is no text of bodies.
fn count_of_bodies(alloc: Global, text: &[u8]) -> usize {
    if text.len() >= 10_000 {
        return 0;
    }
    match parse_bodies(alloc, text) {
        Ok(text) => text.bodies.as_slice().len(),
        Err(_) => 0,
    }
}

/// Whether these are the texts of twenty lanes.
fn are_of_twenty(alloc: Global, texts: &Texts) -> bool {
    is_as_known(alloc, texts.program.as_slice(), &PROGRAM_OF_TWENTY)
        && is_as_known(alloc, texts.bodies.as_slice(), &BODIES_OF_TWENTY)
        && is_as_known(alloc, texts.sensors.as_slice(), &SENSORS_OF_TWENTY)
}

/// Whether the program is in its printed form, and there are so many bodies.
fn are_read(alloc: Global, texts: &Texts, bodies: usize) -> bool {
    is_printed(alloc, texts.program.as_slice())
        && count_of_bodies(alloc, texts.bodies.as_slice()) == bodies
}

#[test]
fn twenty_lanes_in_printed_form(rt: HostRuntime) -> Result<(), Fail> {
    let texts = generate(rt.alloc(), 7, 20)?;
    assert!(rt; are_of_twenty(rt.alloc(), &texts) && are_read(rt.alloc(), &texts, 20));
    Ok(())
}
