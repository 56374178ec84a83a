//! What no clause says: that a body in chunks is read where memory is ample.
use super::*;
use edge_outside::MemSource;
use std::alloc::Global;
use std::test::Fail;

fn read(alloc: Global, text: &[u8], most: usize) -> Result<Option<Vec<u8>>, Fail> {
    let mut source = MemSource::new(text.to_vec(alloc)?, most.max(1), Vec::new(alloc));
    let mut ahead = Ahead::new(alloc);
    match chunked_body(alloc, &mut source, &mut ahead) {
        Ok(body) => Ok(Some(body.bytes().to_vec(alloc)?)),
        Err(_) => Ok(None),
    }
}

#[test]
fn a_body_in_chunks(rt: HostRuntime) -> Result<(), Fail> {
    let alloc = rt.alloc();
    for most in [1usize, 3, 100] {
        let body = read(alloc, b"5;a=b\r\nhello\r\n1 \r\n!\r\n0\r\n\r\nrest", most)?;
        assert_eq!(rt;
            body.as_ref().map(|bytes| bytes.as_slice()),
            Some(b"hello!".as_slice())
        );
        assert!(rt; read(alloc, b"5\r\nhello\r\n0\r\n", most)?.is_none());
    }
    Ok(())
}
