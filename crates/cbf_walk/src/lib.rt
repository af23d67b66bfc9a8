// SPDX-License-Identifier: Apache-2.0
// Definitions and laws only: specs/ and proofs/. No function.
#![tactic(auto)]
