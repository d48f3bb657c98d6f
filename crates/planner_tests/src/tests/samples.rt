//! Samples of lines, by values of SplitMix64 that are published, and their reports.

use crate::tests::told_by;
use call_rim::Status;
use std::test::Fail;
use way_curve::is_sampled;

// Numbers, of how many lines a sample may have one that has the number, and of how many more the sample has it no longer. These are
// states of SplitMix64 after the seed 0; its outputs are e220a8397b1dcdaf, 6e789e6aa1b965f4, 06c45d188009454f and, the fifth,
// 1b39896a51a8749b. Their upper halves go into 2^32 1.13, 2.32, 37.8 and 9.40 times.
const SAMPLED: [(u64, u32); 4] = [
    (0x9e37_79b9_7f4a_7c15, 1),
    (0x3c6e_f372_fe94_f82a, 2),
    (0xdaa6_6d2c_7ddf_743f, 37),
    (0x1715_609f_7c74_6c69, 9),
];

#[test]
fn hashes_are_those_of_the_generator(rt: HostRuntime) -> Result<(), Fail> {
    for (number, most) in SAMPLED {
        for one_of in 1..100 {
            assert_eq!(rt; is_sampled(one_of, number), one_of <= most);
        }
    }
    Ok(())
}

// All lines are 0 0 1 2 1 2 0, of which the first is code. Their hashes are 0, 5692161d100b05e5 and dbd238973a2b148a: one line of
// two is 0 or 1, and one line of three is 0.
const TRACE: &[u8] = b"I  0,4\n L 0,4\n M 7e,4\n S 0,4\n";

// 0 0 1 1 0 in one set.
const ONE_OF_TWO: &[u8] = b"sample: one of 2 lines, 1 sets
data and code:
ways 1: accesses 5 hits 2 misses 3
ways 2: accesses 5 hits 3 misses 2
data:
ways 1: accesses 4 hits 1 misses 3
ways 2: accesses 4 hits 2 misses 2
code:
ways 1: accesses 1 hits 0 misses 1
ways 2: accesses 1 hits 0 misses 1
";

// 0 0 0 in two sets.
const ONE_OF_THREE: &[u8] = b"sample: one of 3 lines, 2 sets
data and code:
ways 1: accesses 3 hits 2 misses 1
data:
ways 1: accesses 2 hits 1 misses 1
code:
ways 1: accesses 1 hits 0 misses 1
";

// All lines in three sets: each is alone in its own.
const ONE_OF_ONE: &[u8] = b"sample: one of 1 lines, 3 sets
data and code:
ways 1: accesses 7 hits 4 misses 3
data:
ways 1: accesses 6 hits 3 misses 3
code:
ways 1: accesses 1 hits 0 misses 1
";

const REPORTS: [([&str; 5], &[u8]); 3] = [
    (["curve", "3", "2", "--one-of", "2"], ONE_OF_TWO),
    (["curve", "8", "1", "--one-of", "03"], ONE_OF_THREE),
    (["curve", "3", "1", "--one-of", "1"], ONE_OF_ONE),
];

#[test]
fn samples_have_their_reports(rt: HostRuntime) -> Result<(), Fail> {
    for (words, report) in REPORTS {
        let (status, taken) = told_by(rt.alloc(), &words, TRACE, 7, &[])?;
        assert_eq!(rt; status, Status::Done);
        assert_eq!(rt; taken.as_slice(), report);
    }
    Ok(())
}

// The lines of `ONE_OF_TWO` with two times the misses.
const SCALED: &[u8] = b"sample: one of 2 lines, 1 sets
data and code:
first uses 2
hint: most misses with one way are first uses
ways 1: accesses 5 hits 2 misses 3 estimate 6
ways 2: accesses 5 hits 3 misses 2 estimate 4
data:
first uses 2
hint: most misses with one way are first uses
ways 1: accesses 4 hits 1 misses 3 estimate 6
ways 2: accesses 4 hits 2 misses 2 estimate 4
code:
first uses 1
hint: most misses with one way are first uses
ways 1: accesses 1 hits 0 misses 1 estimate 2
ways 2: accesses 1 hits 0 misses 1 estimate 2
";

#[test]
fn misses_of_a_sample_are_scaled(rt: HostRuntime) -> Result<(), Fail> {
    let words = ["curve", "3", "2", "--one-of", "2", "--scaled", "--first"];
    let (status, taken) = told_by(rt.alloc(), &words, TRACE, 7, &[])?;
    assert_eq!(rt; status, Status::Done);
    assert_eq!(rt; taken.as_slice(), SCALED);
    Ok(())
}
