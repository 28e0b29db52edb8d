use super::*;
use field_word::Modulus;
use job_text::write_job;
use std::test::Fail;

const TEXT: &str = "flame 1
modulus 101
operation prod
dims n
work W general n n
known L unitlower n n
known U upper n n
equation X = W + L * U
end
operation lu
dims n
work W general n n
equation lu X = W
end
operation ulow
dims n m
work W general n m
known T unitlower n n
equation T * X = W
end
operation upp
dims n m
work W general n m
known T upper n n
equation T * X = W
end
matrix F 2 2
1 48
38 1
end
matrix S 2 2
0 0
0 0
end
matrix B 2 2
38 68
34 74
end
do prod S F F
do lu S
do ulow B S
do upp B S
print S
print B
";

#[test]
fn a_generated_job_is_written(rt: HostRuntime) -> Result<(), Fail> {
    let alloc = rt.alloc();
    let modulus = Modulus::new(101).expect(&rt, "101 is a modulus");
    let job = generate(alloc, 2, modulus, 1)?;
    let mut text = Vec::new(alloc);
    write_job(alloc, &job, &mut text)?;
    assert_eq!(rt; text.as_slice(), TEXT.as_bytes());
    Ok(())
}
