// The two CRCs, CRC-10 of frames and CRC-32 of headers: their rules and laws. It has no function of its own; `crc10` and `crc32` compute them.
#![tactic(auto)]
