// A socket of whose heads the value of one header is not read.
ghost use Rattle.std.specs.Prelude.{⊤};

use crate::header_filter::HeaderFilter;
use futures::task::{Context, Poll};
use std::io;
use tokio::io::{AsyncRead, AsyncWrite};

/// A socket that is read through a filter, where there is one. It writes as it does without. It states no bytes that are read, as
/// a socket states none.
#[derive(Drop)]
pub(crate) struct FilteredStream<I> {
    pub(crate) io: I,
    pub(crate) filter: Option<HeaderFilter>,
}

impl<I: AsyncRead> AsyncRead for FilteredStream<I> {
    ghost needs = { λ stream. I.needs stream.io };

    ghost reads = { λ _ _ _. ⊤ };

    ghost is_at_end = { λ stream. I.is_at_end stream.io };

    ghost fails = { λ stream. I.fails stream.io };

    ghost reads_nothing = { λ _. tt };

    ghost reads_in_order = { λ _ _ _ _ _ _ _. tt };

    fn poll_read(&mut self, cx: &mut Context<'_>, buf: &mut [u8]) -> Poll<io::Result<usize>> {
        let count = match self.io.poll_read(cx, buf) {
            Poll::Ready(Ok(count)) => count,
            polled => return polled,
        };
        let Some(filter) = &mut self.filter else {
            return Poll::Ready(Ok(count));
        };
        if count == 0 {
            return Poll::Ready(Ok(0));
        }
        let read = filter.take_all(buf, count);
        if read == 0 {
            return cx.yield_now();
        }
        Poll::Ready(Ok(read))
    }
}

impl<I: AsyncWrite> AsyncWrite for FilteredStream<I> {
    ghost needs = { λ stream. I.needs stream.io };

    ghost writes = { λ a bytes b. I.writes a.io bytes b.io };

    ghost is_flushed = { λ stream. I.is_flushed stream.io };

    ghost is_shut_down = { λ stream. I.is_shut_down stream.io };

    ghost is_full = { λ stream. I.is_full stream.io };

    ghost fails = { λ stream. I.fails stream.io };

    ghost writes_nothing = { λ stream. I.writes_nothing stream.io };

    ghost writes_in_order = { λ a xs b ys c. I.writes_in_order a.io xs b.io ys c.io };

    fn poll_write(&mut self, cx: &mut Context<'_>, buf: &[u8]) -> Poll<io::Result<usize>> {
        self.io.poll_write(cx, buf)
    }

    fn poll_flush(&mut self, cx: &mut Context<'_>) -> Poll<io::Result<()>> {
        self.io.poll_flush(cx)
    }

    fn poll_shutdown(&mut self, cx: &mut Context<'_>) -> Poll<io::Result<()>> {
        self.io.poll_shutdown(cx)
    }
}
