// A socket that notes when bytes are read.
use crate::connection_phase::PhaseCell;
use futures::task::{Context, Poll};
use std::io;
use std::rc::Rc;
use tokio::io::{AsyncRead, AsyncWrite};

/// A connection's socket. It reads and writes as that does.
#[derive(Drop)]
pub(crate) struct Noted<I> {
    pub(crate) io: I,
    pub(crate) phase_cell: Rc<PhaseCell>,
}

impl<I: AsyncRead> AsyncRead for Noted<I> {
    ghost needs = { λ noted. I.needs noted.io };

    ghost reads = { λ a bytes b. I.reads a.io bytes b.io };

    ghost is_at_end = { λ noted. I.is_at_end noted.io };

    ghost fails = { λ noted. I.fails noted.io };

    ghost reads_nothing = { λ noted. I.reads_nothing noted.io };

    ghost reads_in_order = { λ a xs b ys c. I.reads_in_order a.io xs b.io ys c.io };

    fn poll_read(&mut self, cx: &mut Context<'_>, buf: &mut [u8]) -> Poll<io::Result<usize>> {
        let polled = self.io.poll_read(cx, buf);
        if matches!(&polled, Poll::Ready(Ok(count)) if *count > 0) {
            self.phase_cell.note_bytes();
        }
        polled
    }
}

impl<I: AsyncWrite> AsyncWrite for Noted<I> {
    ghost needs = { λ noted. I.needs noted.io };

    ghost writes = { λ a bytes b. I.writes a.io bytes b.io };

    ghost is_flushed = { λ noted. I.is_flushed noted.io };

    ghost is_shut_down = { λ noted. I.is_shut_down noted.io };

    ghost is_full = { λ noted. I.is_full noted.io };

    ghost fails = { λ noted. I.fails noted.io };

    ghost writes_nothing = { λ noted. I.writes_nothing noted.io };

    ghost writes_in_order = { λ a xs b ys c. I.writes_in_order a.io xs b.io ys c.io };

    fn poll_write(&mut self, cx: &mut Context<'_>, buf: &[u8]) -> Poll<io::Result<usize>> {
        self.io.poll_write(cx, buf)
    }

    fn poll_flush(&mut self, cx: &mut Context<'_>) -> Poll<io::Result<()>> {
        self.io.poll_flush(cx)
    }

    fn poll_shutdown(&mut self, cx: &mut Context<'_>) -> Poll<io::Result<()>> {
        self.io.poll_shutdown(cx)
    }
}
