use super::*;
use issue_list::Choice;
use std::alloc::{AllocError, Global};
use std::test::Fail;

fn words_of(alloc: Global, words: &[&str]) -> Result<Vec<String>, AllocError> {
    let mut all = Vec::new(alloc);
    for word in words {
        all.push(String::from_str(alloc, word)?)?;
    }
    Ok(all)
}

/// How many numbers of variants a run has, and the last of them.
fn counted(choice: &Choice) -> (usize, Option<u32>) {
    match choice {
        Choice::First => (0, None),
        Choice::Each(numbers) => (numbers.len(), numbers.as_slice().last().copied()),
    }
}

#[test]
fn the_words_of_a_run_are_read(rt: HostRuntime) -> Result<(), Fail> {
    let alloc = rt.alloc();
    let words = words_of(
        alloc,
        &[
            "run",
            "--block",
            "1024",
            "--workers",
            "1",
            "--variants",
            "5,4294967295",
            "--trace",
        ],
    )?;
    let read = read_words(alloc, &words)?;
    match &read {
        Some(Command::Run { words }) => {
            assert_eq!(rt; words.block, 1024);
            assert_eq!(rt; words.workers, 1);
            assert!(rt; words.trace);
            assert_eq!(rt; counted(&words.choice), (2, Some(u32::MAX)));
        }
        _ => assert!(rt; false),
    }
    Ok(())
}
