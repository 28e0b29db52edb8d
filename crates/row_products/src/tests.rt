ghost use Rattle.std.specs.Prelude.{◌≡◌, ℕ, ◌<◌, ◌^◌, length, slice_index};

use crate::{Panel, Reducer, Rows, row_sums, three_row_sums};
use field_word::Modulus;

/// Takes each number modulo 2^32, which changes none of those here, and shows the check that they are below.
fn kept_small(numbers: &mut [u64])
    ensures len { length numbers.new ≡ length numbers.old }
    ensures small { (k : ℕ) → k < length numbers.old → slice_index numbers.new k < 2 ^ 32 }
{
    for k in 0..numbers.len() {
        numbers[k] %= 1 << 32;
    }
}

// Each row is a modulus, the residues of 2^64 - 1 and of the square of 2^32 - 1, and then the sums of three rows by five
// lines, computed by Python.
#[test]
fn sums_match_values_from_outside(rt: HostRuntime) {
    let mut first = [4294967295, 4294967295, 4294967295, 1, 0];
    let mut second = [5, 4294967294, 3, 7, 4294967295];
    let mut third = [0, 0, 0, 0, 4294967295];
    let mut entries = [
        4294967295, 4294967295, 4294967295, 4294967295, 4294967295, 4294967295, 4294967295, 9, 8,
        1, 2, 3, 4, 5, 1, 1, 4000000000, 3999999999, 2, 1, 4294967295, 7, 7, 0, 0, 0, 0, 1, 3, 3,
        4294967295, 1, 4294967294, 2, 4294967290,
    ];
    kept_small(&mut first);
    kept_small(&mut second);
    kept_small(&mut third);
    kept_small(&mut entries);
    let rows = Rows {
        first: &first,
        second: &second,
        third: &third,
    };
    let panel = Panel {
        entries: &entries,
        height: 7,
        from: 2,
    };
    for (m, greatest, square, expected) in [
        (2, 1, 1, [0, 0, 0, 0, 0, 0, 1, 0, 1, 1, 1, 1, 1, 1, 0]),
        (6, 3, 3, [0, 4, 4, 0, 2, 0, 1, 0, 3, 1, 3, 3, 3, 3, 0]),
        (
            2147483647,
            3,
            1,
            [
                4, 10, 1557549061, 0, 4, 16, 47, 672647191, 1, 15, 1, 5, 1, 1, 2147483643,
            ],
        ),
        (
            4294967291,
            24,
            16,
            [
                52, 28, 1935228968, 0, 34, 88, 68, 1935228989, 4, 42, 16, 20, 16, 4, 4294967287,
            ],
        ),
        (
            4294967295,
            0,
            0,
            [0, 4, 1, 0, 2, 0, 40, 3115098129, 0, 10, 0, 0, 0, 0, 0],
        ),
    ] {
        let reducer = Reducer::new(Modulus::new(m).expect(&rt, "the modulus is in range"));
        assert_eq!(rt; reducer.modulus().value(), m);
        assert_eq!(rt; reducer.residue(u64::MAX), greatest);
        assert_eq!(rt; reducer.product(4294967295, 4294967295), square);
        let mut three = [0; 15];
        three_row_sums(reducer, rows, panel, 5, &mut three);
        assert_eq!(rt; three, expected);
        let mut one = [0; 5];
        row_sums(reducer, &second, panel, &mut one);
        assert_eq!(rt; one[..], expected[5..10]);
    }
}
