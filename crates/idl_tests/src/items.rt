// Texts and their items.
use idl_token::{ItemKind, TokenFault, items, one_list};

#[test]
fn cuts_texts(rt: HostRuntime) {
    let text = b"interface a.b # one\r\nmethod M()->()";
    let wanted = [
        (ItemKind::Word, 0, 9),
        (ItemKind::Word, 10, 3),
        (ItemKind::Note, 14, 5),
        (ItemKind::Word, 21, 6),
        (ItemKind::Word, 28, 1),
        (ItemKind::Mark, 29, 1),
        (ItemKind::Mark, 30, 1),
        (ItemKind::Mark, 31, 2),
        (ItemKind::Mark, 33, 1),
        (ItemKind::Mark, 34, 1),
    ];
    match items(rt.alloc(), text) {
        Ok(found) => {
            assert_eq!(rt; found.len(), 10);
            for (item, (kind, at, length)) in found.as_slice().iter().zip(wanted) {
                assert!(rt; item.kind == kind);
                assert_eq!(rt; item.at, at);
                assert_eq!(rt; item.text.len(), length);
            }
        }
        Err(_) => assert!(rt; false, "the text has items"),
    }
}

#[test]
fn refuses_texts(rt: HostRuntime) {
    let refusals: [(&[u8], TokenFault); 3] = [
        (b"a \xff", TokenFault::NotUtf8 { at: 2 }),
        (b"a->b", TokenFault::BadByte { at: 2 }),
        (b"a - b", TokenFault::BadByte { at: 2 }),
    ];
    for (text, wanted) in refusals {
        match items(rt.alloc(), text) {
            Ok(_) => assert!(rt; false, "the text has no items"),
            Err(fault) => assert!(rt; fault == wanted),
        }
    }
    one_list();
}
