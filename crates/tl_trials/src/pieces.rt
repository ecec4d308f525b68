//! A file of several pieces.
use crate::hosts::host;
use tl_host::read_file;
use tl_path::PathRef;

#[test]
fn a_file_of_several_pieces_is_read_whole(rt: HostRuntime) {
    let alloc = rt.alloc();
    let long = vec![in alloc; 7u8; 70000].ok().expect(&rt, "memory");
    let mut host = host(&rt, alloc, &[("a", long.as_slice())]);
    let read = read_file(alloc, &mut host, PathRef::known("a"), 70000)
        .ok()
        .expect(&rt, "a read");
    assert_eq!(rt; read.expect(&rt, "a file").as_slice(), long.as_slice());
    assert!(rt; read_file(alloc, &mut host, PathRef::known("a"), 69999).is_err());
    assert!(rt;
        read_file(alloc, &mut host, PathRef::known("b"), 9)
            .ok()
            .expect(&rt, "a read")
            .is_none()
    );
}
