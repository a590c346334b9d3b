// A panel asks for a route.
#[derive(Clone, Copy)]
pub struct Request {
    pub panel: u8,
    pub route: u8,
}
