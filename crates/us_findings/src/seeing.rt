use us_requests::Request;

/// Who is shown the requests of a trace while its rows are read, so that they are read once.
pub trait SeesRequests {
    /// One more request, and the line on which its record begins. Who wants memory for it notes that, and tells it later.
    fn see(&mut self, request: &Request, line: usize);
}
