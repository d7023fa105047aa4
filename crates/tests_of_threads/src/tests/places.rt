//! The readers' places.
use crate::tests::setting::{desk_for, look, same};
use numa_machine::PlaceRefusal;
use numa_publish::NoReader;

#[test]
fn sixty_four_at_once(rt: HostRuntime) {
    let mut desk = desk_for(&rt, rt.alloc(), 64);
    let mut readers = Vec::with_capacity(rt.alloc(), 64).expect(&rt, "memory");
    for _ in 0..64 {
        readers
            .push(desk.reader().expect(&rt, "a place"))
            .expect(&rt, "memory");
    }
    let refused = desk.reader().err();
    drop(readers.pop());
    let again = desk.reader().ok().map(|reader| look(reader).1);
    desk.end();
    same(&rt, &refused, &Some(NoReader));
    same(&rt, &again, &Some(Some((0, Err(PlaceRefusal::Unmapped)))));
}
