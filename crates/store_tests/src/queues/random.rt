use input_queue::{RandomWords, drop_word};
use soar_sym::NoMemory;
use std::alloc::Global;
use std::test::Fail;

fn are(words: &RandomWords, expected: &[u64]) -> bool {
    words.as_slice() == expected
}

/// Whether words go from the front, where a draw took one, for as long as there are words, and others may follow.
fn words_go(alloc: Global) -> Result<bool, NoMemory> {
    let mut words = RandomWords::new(alloc);
    words.extend_from_slice(&[7, 8])?;
    drop_word(&mut words, false);
    let all = are(&words, &[7, 8]);
    drop_word(&mut words, true);
    let rest = are(&words, &[8]);
    drop_word(&mut words, true);
    drop_word(&mut words, true);
    let none = are(&words, &[]);
    words.extend_from_slice(&[9])?;
    Ok(all && rest && none && are(&words, &[9]))
}

#[test]
fn what_draws_took_goes_from_the_front(rt: HostRuntime) -> Result<(), Fail> {
    assert!(rt; words_go(rt.alloc())?);
    Ok(())
}
