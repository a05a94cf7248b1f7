//! The names of the files.

ghost use Rattle.std.specs.Prelude.{◌≡◌, IfOk, string_bytes};
ghost use Rattle.ol_devices.specs.Names.{chunk_name, folder_name, tapes_name, volume_name};

use ol_ports::NoMemory;

/// The file of a chunk.
pub(crate) fn chunk_path(rt: &HostRuntime, dir: &str, chunk: usize) -> Result<String, NoMemory>
    ensures { IfOk result (λ path. string_bytes path ≡ chunk_name dir.now chunk) }
{
    format!(in rt.alloc(); "{dir}/chunk{chunk}")
}

/// The folder of the drives' folders.
pub(crate) fn tapes_path(rt: &HostRuntime, dir: &str) -> Result<String, NoMemory>
    ensures { IfOk result (λ path. string_bytes path ≡ tapes_name dir.now) }
{
    format!(in rt.alloc(); "{dir}/tape")
}

/// The folder of the volumes of a drive.
pub(crate) fn folder_path(rt: &HostRuntime, dir: &str, drive: u8) -> Result<String, NoMemory>
    ensures { IfOk result (λ path. string_bytes path ≡ folder_name dir.now drive) }
{
    format!(in rt.alloc(); "{dir}/tape/{drive}")
}

/// The file of a volume.
pub(crate) fn volume_path(
    rt: &HostRuntime,
    dir: &str,
    drive: u8,
    volume: u32,
) -> Result<String, NoMemory>
    ensures { IfOk result (λ path. string_bytes path ≡ volume_name dir.now drive volume) }
{
    format!(in rt.alloc(); "{dir}/tape/{drive}/{volume}")
}
