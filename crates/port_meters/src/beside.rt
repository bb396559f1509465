// What is served beside the ports of a front.
use crate::meters::Meters;
use std::io;
use std::sync::Arc;
use tokio_util::sync::CancellationToken;

/// What is served beside the ports of a front, on a thread of its own, with a reader of what they serve, and with what acts there.
pub trait Beside<R, W, A>: Drop {
    /// What shows that it was served to its end. Only serving it gives that.
    type Served: Drop;

    /// Serves it until the front ends.
    fn serve(
        self,
        rt: R,
        reader: W,
        acting: A,
        meters: Arc<Meters>,
        ending: &CancellationToken,
    ) -> io::Result<Self::Served>;
}
