// Execution models.

pub const GL_COMPUTE: u32 = 5;
