// Values that are held.

/// Drops a value. Its type is a parameter here, so that this is one call, and the meaning of the caller stays small.
pub fn let_go<T: Drop>(_value: T) {}
