use cob_source::{SourceFault, SourceRule, free_tokens, paragraph_tokens, tokens, without_tabs};
use std::test::Fail;

/// Where memory is refused, the answer is T9 with line 0, or that of the paragraph's call.
#[test]
fn refused_memory(rt: HostRuntime) {
    let text = b"       MOVE T(1,2)\n      -    TO \"A\n      -    \"B\".\n";
    match tokens(rt.alloc(), text) {
        Ok(list) => {
            assert_eq!(rt; list.len(), 4);
            if let Ok(words) = paragraph_tokens(rt.alloc(), text) {
                assert_eq!(rt; words.len(), 9);
            }
        }
        Err(fault) => assert_eq!(rt;
            fault,
            SourceFault {
                rule: SourceRule::Memory,
                line: 0
            }
        ),
    }
}

/// And so it is of a text in free format; of one with tabs there is none.
#[test]
fn refused_memory_of_other_texts(rt: HostRuntime) {
    match free_tokens(rt.alloc(), b"01 A.\n") {
        Ok(list) => assert_eq!(rt; list.len(), 3),
        Err(fault) => assert_eq!(rt;
            fault,
            SourceFault {
                rule: SourceRule::Memory,
                line: 0
            }
        ),
    }
    if let Ok(text) = without_tabs(rt.alloc(), b"\t01 A.\n", 8) {
        assert_eq!(rt; text.len(), 14);
    }
}

/// What a fault prints.
#[test]
fn printed_rules(rt: HostRuntime) -> Result<(), Fail> {
    for (rule, want) in [
        (SourceRule::NotAscii, "T1 line 7"),
        (SourceRule::Tab, "T2 line 7"),
        (SourceRule::OpenLiteral, "T3 line 7"),
        (SourceRule::BadContinuation, "T4 line 7"),
        (SourceRule::TooLong, "T5 line 7"),
        (SourceRule::UnknownIndicator, "T6 line 7"),
        (SourceRule::Memory, "T9 line 7"),
    ] {
        let fault = SourceFault { rule, line: 7 };
        assert_eq!(rt; format!(in rt.alloc(); "{fault}")?.as_str(), want);
    }
    Ok(())
}
