//! Changes of a forest undone: what may have been made of it since it was kept, what undoing needs, and the law that it gives the
//! forest back.
