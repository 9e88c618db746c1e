// Why a name is not added.
use mp_base::NoMemory;
use thiserror::Error;

/// Why a name is not added: it is new and there are 2^32 - 2 names already, or there was no memory.
#[derive(Debug, Drop, Error)]
pub enum NameFault {
    #[error("there are 2^32 - 2 names already")]
    Full,
    #[error("there was no memory")]
    NoMemory,
}

/// A text of fewer than 2^32 - 1 bytes never has so many names, so its reader takes a full list for want of memory.
impl From<NameFault> for NoMemory {
    fn from(_: NameFault) -> Self {
        NoMemory
    }
}
