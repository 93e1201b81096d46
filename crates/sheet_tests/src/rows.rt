// All rows: each is a text, and calls on its sheet with their answers.
use crate::answers::{answered, unopened};
use crate::lines::{trimmed, without};
use crate::played::{only_calls, played};
use crate::texts::{Table, table_of};
use crate::{alikes, looks, rates, refused, symbols};
use leaves::{Rate, Symbol};
use recipe::{Leaf, Refusal};
use std::alloc::Global;
use std::test::Fail;

// What stands in a list of symbols before a text is read.
const SYMBOL: Symbol = Symbol { packed: 0 };

// What stands in a list of rates before a text is read.
const RATE: Rate = Rate {
    numerator: 0,
    denominator: 0,
};

// The lines of a row as the sheet of its text answers them, in a memory of exactly the words that it needs.
fn said<L: Leaf>(heap: Global, text: &str, some: L, calls: &str) -> Result<String, Fail> {
    let Table {
        places,
        leaves,
        needed,
    } = table_of(heap, text, some)?;
    Ok(answered(heap, &places, &leaves, needed, calls)?)
}

#[test]
fn calls_are_answered_as_the_rules_say(rt: HostRuntime) -> Result<(), Fail> {
    let heap = rt.alloc();
    let rows = symbols::ROWS
        .iter()
        .chain(&looks::ROWS)
        .chain(&refused::ROWS)
        .chain(&alikes::SYMBOLS);
    for (i, (text, calls)) in rows.enumerate() {
        assert_eq!(rt;
            said(heap, text, SYMBOL, calls)?,
            trimmed(heap, calls)?,
            "{}",
            i
        );
    }
    for (i, (text, calls)) in rates::ROWS.iter().chain(&alikes::RATES).enumerate() {
        assert_eq!(rt;
            said(heap, text, RATE, calls)?,
            trimmed(heap, calls)?,
            "{}",
            i
        );
    }
    Ok(())
}

#[test]
fn without_a_refused_tell_the_others_have_the_same_answers(rt: HostRuntime) -> Result<(), Fail> {
    let heap = rt.alloc();
    let rows = symbols::ROWS
        .iter()
        .chain(&looks::ROWS)
        .chain(&refused::ROWS)
        .chain(&alikes::SYMBOLS);
    for (i, (text, calls)) in rows.enumerate() {
        for (k, line) in calls.lines().enumerate() {
            if line.contains("tell") && line.contains("refused") {
                let others = without(heap, calls, k)?;
                assert_eq!(rt;
                    said(heap, text, SYMBOL, &others)?,
                    others,
                    "{}, line {}",
                    i,
                    k
                );
            }
        }
    }
    Ok(())
}

#[test]
fn with_one_word_less_or_none_every_place_is_past_the_end(rt: HostRuntime) -> Result<(), Fail> {
    let heap = rt.alloc();
    let rows = symbols::ROWS
        .iter()
        .chain(&looks::ROWS)
        .chain(&refused::ROWS)
        .chain(&alikes::SYMBOLS);
    for (i, (text, calls)) in rows.enumerate() {
        let table = table_of(heap, text, SYMBOL)?;
        let expected = unopened(heap, Refusal::MemoryTooShort, calls)?;
        for words in [table.needed.saturating_sub(1), 0] {
            let lines = answered(heap, &table.places, &table.leaves, words, calls)?;
            assert_eq!(rt; lines, expected, "{}", i);
            let mut memory = vec![in heap; 7; words]?;
            let (lines, opened) = played(heap, &table.places, &table.leaves, &mut memory, calls)?;
            assert_eq!(rt; lines, only_calls(heap, &expected)?, "{}", i);
            assert_eq!(rt; opened, Err(Refusal::MemoryTooShort), "{}", i);
            assert!(rt; memory.iter().all(|word| *word == 7), "{}", i);
        }
    }
    Ok(())
}

#[test]
fn played_at_once_the_calls_have_the_same_answers_and_the_words_past_the_need_stay(
    rt: HostRuntime,
) -> Result<(), Fail> {
    let heap = rt.alloc();
    let rows = symbols::ROWS
        .iter()
        .chain(&looks::ROWS)
        .chain(&refused::ROWS)
        .chain(&alikes::SYMBOLS);
    for (i, (text, calls)) in rows.enumerate() {
        let table = table_of(heap, text, SYMBOL)?;
        let mut memory = vec![in heap; 7; table.needed.saturating_add(100)]?;
        let (lines, opened) = played(heap, &table.places, &table.leaves, &mut memory, calls)?;
        assert_eq!(rt; lines, only_calls(heap, calls)?, "{}", i);
        assert_eq!(rt; opened, Ok(()), "{}", i);
        assert!(rt;
            memory.iter().skip(table.needed).all(|word| *word == 7),
            "{}",
            i
        );
    }
    Ok(())
}
