// A train, as the record that it is kept in.
use table::Table;
use trackside::answers::Stand;

mod calls;

// The stands, rear first. The frame link's trains always have a stand; a record may have none.
#[derive(Clone, Copy)]
pub struct Train {
    stands: Table<Stand, 24>,
}
