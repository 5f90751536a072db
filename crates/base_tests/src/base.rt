use spv_base::{ByteList, Fault, Id, NoMemory, Refusal, Words, rule};
use std::alloc::Global;
use std::test::Fail;

fn words_keep_their_order(alloc: Global) -> Result<bool, NoMemory> {
    let mut words = Words::new(alloc);
    words.push(7)?;
    words.extend(&[8, 9])?;
    let kept = words.count() == 3 && *words.at(1) == 8 && words.as_slice() == [7, 8, 9].as_slice();
    let vector = Words::from_vec(words.into_vec()).into_vec();
    Ok(kept && vector.as_slice() == [7, 8, 9].as_slice())
}

fn octets_keep_their_order(alloc: Global) -> Result<bool, NoMemory> {
    let mut octets = ByteList::new(alloc);
    octets.push(1)?;
    octets.extend(&[2, 3])?;
    let kept = octets.count() == 3
        && *octets.at(2) == 3
        && octets.as_slice() == [1, 2, 3].as_slice();
    let vector = ByteList::from_vec(octets.into_vec()).into_vec();
    Ok(kept && vector.as_slice() == [1, 2, 3].as_slice())
}

fn is_printed(alloc: Global, fault: Fault, text: &str) -> Result<bool, Fail> {
    Ok(format!(in alloc; "{fault}")?.as_str() == text)
}

#[test]
fn lists_keep_their_order(rt: HostRuntime) -> Result<(), Fail> {
    assert!(rt; words_keep_their_order(rt.alloc())?);
    assert!(rt; octets_keep_their_order(rt.alloc())?);
    Ok(())
}

#[test]
fn an_id_is_above_zero(rt: HostRuntime) {
    assert!(rt; Id::new(0).is_none());
    assert!(rt; Id::new(5).is_some_and(|id| id.number() == 5));
}

#[test]
fn faults_are_printed(rt: HostRuntime) -> Result<(), Fail> {
    let refusal = Refusal {
        rule: rule::PAST_END,
        at: 136,
    };
    for (fault, text) in [
        (Fault::Refused(refusal), "rule 105 is broken at word 136"),
        (Fault::Nesting, "a body nests too deep"),
        (Fault::from(NoMemory), "out of memory"),
    ] {
        assert!(rt; is_printed(rt.alloc(), fault, text)?, "{text}");
    }
    Ok(())
}
