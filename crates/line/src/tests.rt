use super::Line;

// Three go through two slots: the last of them comes to lie in the slot that the first had.
#[test]
fn goes_round(rt: HostRuntime) {
    let mut slots = [0u8; 2];
    let mut line = Line::new(&mut slots);
    assert!(rt; line.put(7).is_ok());
    assert!(rt; line.put(8).is_ok());
    assert!(rt; line.put(9).is_err());
    assert_eq!(rt; line.take(), Some(7));
    assert!(rt; line.put(9).is_ok());
    assert_eq!(rt; line.take(), Some(8));
    assert_eq!(rt; line.take(), Some(9));
    assert_eq!(rt; line.take(), None);
}

// A line without slots is empty and full at once.
#[test]
fn without_slots(rt: HostRuntime) {
    let mut slots: [u8; 0] = [];
    let mut line = Line::new(&mut slots);
    assert!(rt; line.room() == 0);
    assert!(rt; line.put(7).is_err());
    assert_eq!(rt; line.take(), None);
}
