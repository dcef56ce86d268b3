//! Files that can be locked, so that one program at a time writes them.

use std::fs::{File, TryLockError};

/// A file that can be locked.
pub trait LockFile {
    /// Takes the lock of the file, which is held until the file is dropped: alone, or shared with others that do not take it alone.
    /// It waits for nobody.
    fn try_lock_as(&self, is_shared: bool) -> Result<(), TryLockError>;
}

impl LockFile for File {
    fn try_lock_as(&self, is_shared: bool) -> Result<(), TryLockError> {
        if is_shared {
            self.try_lock_shared()
        } else {
            self.try_lock()
        }
    }
}
