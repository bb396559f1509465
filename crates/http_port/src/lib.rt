//! HTTP/1.1 on one port: the requests of its connections are read and handed to an application, which answers each.
//!
//! A thread serves a port by `serve`, on a runtime of its own. Each request is a hand-written future: its body is read,
//! up to as many bytes as the application wants, and then its reply is waited for. Where the body was not read to its end,
//! the reply says that the connection ends, and what is left is read behind it and thrown away, so that the client sees the
//! reply and not a connection that fails. The value of one header may be left out, so that heads may be longer by it. What a
//! browser sends for a web page is refused by its head alone, and so is a host that a port does not answer to (`Hosts`).
//! `HttpLimits` say how long a client may take, and how many connections are open at once. The bodies that are under way share a
//! `BodyRoom`: one for which there is no room waits to be read. A `PortMeter` counts connections, how long replies took, and what did
//! not come to the application.
#![tactic(auto)]

mod answering;
mod application;
mod body_room;
mod connection_future;
mod connection_phase;
mod connections;
mod door;
mod draft;
mod filtered_stream;
mod forbidden;
mod header_filter;
mod hosts;
mod http_limits;
mod lingering;
mod listening;
mod noted;
mod permits;
mod port;
mod reading;
mod requests;
mod target;
mod timer;

pub use answering::{Body, HttpResponse, IntoResponse, Refused};
pub use application::Application;
pub use body_room::BodyRoom;
pub use draft::Draft;
pub use hosts::Hosts;
pub use http_limits::HttpLimits;
pub use listening::Listening;
pub use port::serve;
pub use reading::{BodyError, ReadBody};
pub use target::target_of;
